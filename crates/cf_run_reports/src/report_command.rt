//! The run of `report`.

ghost use Rattle.std.specs.Prelude.{◌≡◌, ◌≢◌, IfOk};
ghost use Rattle.cf_base.specs.Common.{Rose};
ghost use Rattle.cf_calls.specs.Common.{IsYear};
ghost use Rattle.cf_run_status.specs.Devices.{device};
ghost use Rattle.cf_run_reports.specs.Reports.{ReportEnds, heading_of, report_text, rows_of};

use cf_base::Sink;
use cf_calls::Row;
use cf_classes::{classes_title, components_title, major_title};
use cf_disk::Disk;
use cf_journal_book::{Book, NotOpened, open};
use cf_run_status::{Ran, Status, print, refusal_status};
use cf_run_words::ReportKind;
use cf_statements::title;
use cf_text::statement_bytes;
use std::alloc::{AllocError, Global};

/// What a statement is called, without city and year.
fn heading(kind: ReportKind) -> &'static str
    ensures { result.now ≡ heading_of kind }
{
    match kind {
        ReportKind::Look(kind) => title(kind),
        ReportKind::Classes => classes_title(),
        ReportKind::Components => components_title(),
        ReportKind::Major => major_title(),
    }
}

/// The rows of a statement of a book.
fn rows<D: Disk + Drop>(
    alloc: Global,
    book: &Book<D>,
    year: u16,
    kind: ReportKind,
) -> Result<Vec<Row>, AllocError>
    requires { IsYear year }
    ensures { IfOk result (λ rows. rows.items ≡ rows_of book.now.plan book.now.entries year kind) }
{
    match kind {
        ReportKind::Look(kind) => book.report_rows(alloc, year, kind),
        ReportKind::Classes => book.class_rows(alloc, year),
        ReportKind::Components => book.component_rows(alloc, year),
        ReportKind::Major => book.major_rows(alloc, year),
    }
}

/// The bytes of a statement of a book.
fn report_bytes<D: Disk + Drop>(
    alloc: Global,
    book: &Book<D>,
    year: u16,
    kind: ReportKind,
    csv: bool,
) -> Result<Vec<u8>, AllocError>
    requires { IsYear year }
    ensures { IfOk result
        (λ text. text.items ≡ report_text book.now.plan book.now.entries year kind csv) }
{
    let rows = rows(alloc, book, year, kind)?;
    let city = book.chart().city();
    statement_bytes(alloc, city, heading(kind), year, rows.as_slice(), csv)
}

/// The run of `report`: opens the journal, makes a statement of its history for a fiscal year,
/// from 1971 to 2199, and writes it as lines of text or, where `csv` is true, as comma-separated
/// records. The journal is only read. Where it isn't opened, or there is no memory, nothing is
/// written.
pub fn run_report<O: Sink, D: Disk + Drop>(
    alloc: Global,
    year: u16,
    kind: ReportKind,
    csv: bool,
    out: &mut O,
    disk: D,
) -> Ran<D>
    requires { IsYear year }
    ensures ends { ReportEnds
        (device D.tells D.content D.is_image D.moment D.was_image D.faults) year kind csv disk
        result.disk
        (O.held out.old) (O.held out.new) result.status }
    ensures write { result.status ≡ Status.WriteFault → Rose (O.faults out.old) (O.faults out.new) }
    ensures disk { result.status ≡ Status.DiskFault → Rose (D.faults disk) (D.faults result.disk) }
    ensures memory { result.status ≡ Status.NoMemory
        → (O.faults out.new ≡ O.faults out.old) × (D.faults result.disk ≡ D.faults disk) }
    ensures out_quiet { result.status ≢ Status.WriteFault → O.faults out.new ≡ O.faults out.old }
{
    match open(alloc, disk) {
        Ok(book) => {
            let status = print(report_bytes(alloc, &book, year, kind, csv), out);
            Ran {
                status,
                disk: book.close(),
            }
        }
        Err(NotOpened { disk, why }) => Ran {
            status: refusal_status(why),
            disk,
        },
    }
}
