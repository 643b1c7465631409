//! What is printed of a statement.
ghost use Rattle.std.specs.Prelude.{◌≡◌, IfOk, string_bytes};
ghost use Rattle.cf_text.specs.Bytes as spec;
ghost use Rattle.cf_text.specs.Statement as line;

use crate::lines::put_statement;
use crate::records::records_of;
use cf_calls::Row;
use std::alloc::{AllocError, Global};

/// The title line of a city's statement of a fiscal year, but for its newline.
fn title_line(alloc: Global, city: &str, title: &str, year: u16) -> Result<String, AllocError>
    ensures { IfOk result (λ t. string_bytes t ≡ line.title_line city.now title.now year) }
{
    format!(in alloc; "{city}: {title}, fiscal year {year}")
}

/// What is printed of a statement: its title line and a line for each row, or, as comma-separated
/// records, a record for each row and no title (own rule).
pub fn statement_bytes(
    alloc: Global,
    city: &str,
    title: &str,
    year: u16,
    rows: &[Row],
    is_csv: bool,
) -> Result<Vec<u8>, AllocError>
    ensures { IfOk result
        (λ bytes. bytes.items ≡ spec.statement_bytes city.now title.now year is_csv rows.now) }
{
    if is_csv {
        return records_of(alloc, rows);
    }
    let title_line = title_line(alloc, city, title, year)?;
    let mut out = Vec::new(alloc);
    put_statement(title_line.as_str(), rows, &mut out)?;
    Ok(out)
}
