//! What is said of a document of grants, under the chart or over the history of a journal.

ghost use Rattle.cf_journal_book.specs.Recovery.{recovered};
ghost use Rattle.cf_chart.specs.Common.{chart_of};
ghost use Rattle.cf_claims.specs.Standing.{vouchers_of_grant as rows_of_grant};
ghost use Rattle.cf_grants.specs.Reading.{grants_of};
ghost use Rattle.cf_books.specs.Answers as spec;
ghost use Rattle.cf_books.specs.Answers.{Answers};
ghost use Rattle.cf_books_front.specs.Whole.{whole_of};

use crate::answers::{Answer, damaged, nothing};
use crate::fault_rows;
use crate::office::{open_book, refused_answer};
use crate::status::Status;
use cf_books_front::read_whole;
use cf_books_grants::{document_text, fault_id, vouchers_text};
use cf_books_lists::Layout;
use cf_chart::{Chart, ChartRefused};
use cf_claims::vouchers_of_grant;
use cf_disk::MemDisk;
use cf_grants::{GrantFault, GrantRefused, Grants};
use cf_journal::OpenRefused;
use cf_journal_book::Book;
use std::alloc::{AllocError, Global};

/// What is said of a document with a fault.
fn refused_document(alloc: Global, bytes: &[u8], fault: GrantFault) -> Result<Answer, AllocError>
    ensures { Answers result (spec.refused_document bytes.now fault) }
{
    let id = fault_id(alloc, bytes, fault)?;
    Ok(nothing(alloc, Status::GrantsRefused { fault, id }))
}

/// What a document has under a chart, or its first fault.
fn document_answer(alloc: Global, bytes: &[u8], chart: &Chart) -> Result<Answer, AllocError>
    ensures { Answers result (spec.document_said bytes.now (grants_of chart.now bytes.now)) }
{
    match Grants::read(alloc, bytes, chart) {
        Ok(grants) => {
            let out = document_text(alloc, &grants)?;
            let status = Status::Done;
            Ok(Answer { out, status })
        }
        Err(GrantRefused::Fault(fault)) => refused_document(alloc, bytes, fault),
        Err(GrantRefused::NoMemory) => Err(AllocError),
    }
}

/// What a document has under the chart that these bytes are, or the first fault of the chart or the
/// document.
fn under_chart(alloc: Global, bytes: &[u8], chart: &[u8]) -> Result<Answer, AllocError>
    ensures { Answers result (spec.under_chart bytes.now chart.now (chart_of chart.now)) }
{
    match Chart::read(alloc, chart) {
        Ok(chart) => document_answer(alloc, bytes, &chart),
        Err(ChartRefused::Fault(fault)) => {
            let id = fault_rows::fault_id(alloc, chart, fault)?;
            Ok(nothing(alloc, Status::ChartRefused { fault, id }))
        }
        Err(ChartRefused::NoMemory) => Err(AllocError),
    }
}

/// What a document of grants has under the chart that a journal keeps, or its first fault.
pub fn grants_answer(alloc: Global, bytes: &[u8], journal: &[u8]) -> Result<Answer, AllocError>
    ensures { Answers result (spec.grants_said bytes.now (whole_of journal.now)) }
{
    match read_whole(alloc, journal) {
        Ok(whole) => under_chart(alloc, bytes, whole.chart.as_slice()),
        Err(OpenRefused::NotFounded { len, byte: _ }) => {
            Ok(nothing(alloc, Status::NotFounded { len }))
        }
        Err(OpenRefused::Damaged { offset }) => Ok(damaged(alloc, offset)),
        Err(OpenRefused::Disk | OpenRefused::NoMemory) => Err(AllocError),
    }
}

/// How the vouchers of a grant of a document stand in a book's history.
fn vouchers_answer(
    layout: Layout,
    grant: u16,
    bytes: &[u8],
    book: &Book<MemDisk>,
) -> Result<Answer, AllocError>
    ensures { Answers result (spec.rows_said layout.csv bytes.now
        (rows_of_grant book.now.plan book.now.entries bytes.now grant)) }
{
    match vouchers_of_grant(layout.alloc, book.chart(), book.entries(), bytes, grant) {
        Ok(rows) => {
            let out = vouchers_text(layout, rows.as_slice())?;
            let status = Status::Done;
            Ok(Answer { out, status })
        }
        Err(GrantRefused::Fault(fault)) => refused_document(layout.alloc, bytes, fault),
        Err(GrantRefused::NoMemory) => Err(AllocError),
    }
}

/// How the vouchers of a grant of a document stand in the history of a journal, whose entries the
/// office takes again.
pub fn claims_answer(
    layout: Layout,
    grant: u16,
    bytes: &[u8],
    journal: &[u8],
) -> Result<Answer, AllocError>
    ensures { Answers result (spec.over_office (spec.vouchers_said grant layout.csv bytes.now)
        journal.now (recovered journal.now)) }
{
    let copy = Vec::from_slice(layout.alloc, journal)?;
    match open_book(layout.alloc, copy) {
        Ok(book) => vouchers_answer(layout, grant, bytes, &book),
        Err(why) => refused_answer(layout.alloc, journal, why),
    }
}
