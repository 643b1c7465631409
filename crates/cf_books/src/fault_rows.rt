//! The id of the row that a chart's fault is in, which tells more than its place where a table has
//! many rows.

ghost use Rattle.std.specs.Prelude.{◌≡◌, IfOk};
ghost use Rattle.toml.specs.View.{view};
ghost use Rattle.cf_chart.specs.Common.{value_of};
ghost use Rattle.cf_books.specs.FaultRows as spec;

use cf_books_grants::id_in;
use cf_chart::{ChartFault, KeyName, TableName};
use std::alloc::{AllocError, Global};
use toml::Value;

/// A row: its table, and its place in it, counted from 0.
#[derive(Clone, Copy)]
struct FaultRow {
    table: TableName,
    at: u64,
}

/// Whether the rows of a table have ids: a line is known by its place alone.
fn has_ids(table: TableName) -> bool
    ensures { result ≡ spec.has_ids table }
{
    !matches!(table, TableName::Top | TableName::Line)
}

/// Whether a fault of this key is one of a row whose id is another key. A key that is named as the
/// table says that the whole table is no list of rows.
fn is_beside_id(table: TableName, key: KeyName) -> bool
    ensures { result ≡ spec.is_beside_id table key }
{
    let word = key.word();
    word != "id" && word != table.word()
}

/// This row, where it is wanted and the rows of its table have ids.
fn row_if(wanted: bool, table: TableName, at: u64) -> Option<FaultRow>
    ensures { result ≡ spec.row_if wanted table at }
{
    if wanted && has_ids(table) {
        Some(FaultRow { table, at })
    } else {
        None
    }
}

/// The row that a fault is in, where its id can say so.
fn row_of(fault: ChartFault) -> Option<FaultRow>
    ensures { result ≡ spec.row_of fault }
{
    match fault {
        ChartFault::Missing { table, at, key } => row_if(is_beside_id(table, key), table, at),
        ChartFault::Bad { table, at, key } => row_if(is_beside_id(table, key), table, at),
        ChartFault::Twice { table, at } => row_if(true, table, at),
        ChartFault::TooLong { .. }
        | ChartFault::NotToml
        | ChartFault::TooMany { .. }
        | ChartFault::Window { .. }
        | ChartFault::General { .. } => None,
    }
}

/// The id of a row of a document.
fn id_at(document: &Value, row: FaultRow) -> Option<u16>
    ensures { result ≡ spec.id_at row (view document.now) }
{
    id_in(document.get(row.table.word())?.get(row.at as usize)?)
}

/// The id of a row of the document that these bytes are. A row has none where they are no document.
fn id_under(alloc: Global, bytes: &[u8], row: FaultRow) -> Result<Option<u16>, AllocError>
    ensures { IfOk result (λ id. id ≡ spec.id_under row (value_of bytes.now)) }
{
    match toml::table_from_slice(alloc, bytes) {
        Ok(table) => Ok(id_at(&Value::from(table), row)),
        Err(error) if error.is_memory() => Err(AllocError),
        Err(_) => Ok(None),
    }
}

/// The id of the row that a fault of a chart is in, 0 to 65535. `None` where the row has no such
/// id, where the id is itself what is missing or bad, where the rows of the table have no ids, and
/// where the fault is in no row. The bytes are those that the fault was found in.
pub fn fault_id(alloc: Global, bytes: &[u8], fault: ChartFault) -> Result<Option<u16>, AllocError>
    ensures { IfOk result (λ id. id ≡ spec.fault_id bytes.now fault) }
{
    match row_of(fault) {
        Some(row) => id_under(alloc, bytes, row),
        None => Ok(None),
    }
}
