//! What the entries of a journal post and change, with their days, while it is opened.

ghost use Rattle.std.specs.Prelude.{◌≡◌, ◌++◌, IfOk, IfErr, OnOk};
ghost use Rattle.cf_journal_book.specs.Openings.{OpensBook, OpensNone};
ghost use Rattle.cf_journal_book.specs.Watching.{all_posted};
ghost use Rattle.cf_books_days.specs.Gathered as spec;

use cf_base::Day;
use cf_budget::LineChange;
use cf_calls::Entry;
use cf_chart::Chart;
use cf_disk::Disk;
use cf_journal_book::{Book, NotOpened, Watch, open_watched};
use cf_ledger::Post;
use cf_registers::Registers;
use std::alloc::{AllocError, Global};

/// A post of an entry of this day.
#[derive(Clone, Copy)]
pub struct DatedPost {
    pub on: Day,
    pub post: Post,
}

/// What an entry of this day changes of a line and year.
#[derive(Clone, Copy)]
pub struct DatedChange {
    pub on: Day,
    pub change: LineChange,
}

/// What the entries of a journal post on both bases and change of line numbers, oldest first.
#[derive(Drop)]
pub struct Dated {
    pub fund: Vec<DatedPost>,
    pub gov: Vec<DatedPost>,
    pub changes: Vec<DatedChange>,
}

impl Watch for Dated {
    ghost has_seen = { λ d plan seen. spec.IsOf plan seen d };

    fn see(
        &mut self,
        _chart: &Chart,
        _place: u64,
        entry: &Entry,
        _before: &Registers,
        changes: &[LineChange],
        fund: &[Post],
        gov: &[Post],
    ) -> Result<(), AllocError> {
        let on = entry.change.on;
        put_posts(&mut self.fund, on, fund)?;
        put_posts(&mut self.gov, on, gov)?;
        put_changes(&mut self.changes, on, changes)
    }
}

/// Appends the posts of an entry of a day.
fn put_posts(out: &mut Vec<DatedPost>, on: Day, posts: &[Post]) -> Result<(), AllocError>
    ensures { OnOk result (out.new.items ≡ out.old.items ++ spec.posts_on on posts.now) }
{
    for post in posts {
        out.push(DatedPost { on, post: *post })?;
    }
    Ok(())
}

/// Appends what an entry of a day changes.
fn put_changes(
    out: &mut Vec<DatedChange>,
    on: Day,
    changes: &[LineChange],
) -> Result<(), AllocError>
    ensures { OnOk result (out.new.items ≡ out.old.items ++ spec.changes_on on changes.now) }
{
    for change in changes {
        out.push(DatedChange {
            on,
            change: *change,
        })?;
    }
    Ok(())
}

/// Opens the book of the journal on a disk, as `cf_journal_book::open` does, with what its entries
/// post and change.
pub fn open_dated<D: Disk + Drop>(alloc: Global, disk: D) -> Result<(Book<D>, Dated), NotOpened<D>>
    ensures ok { IfOk result (λ x. OpensBook D.tells D.content D.is_image D.moment D.was_image
        D.faults disk x.0) }
    ensures dated { IfOk result (λ x. spec.IsOf x.0.plan (all_posted x.0.plan x.0.entries) x.1) }
    ensures err { IfErr result (λ e. OpensNone D.tells D.content D.is_image D.moment D.was_image
        D.faults disk e.disk e.why) }
{
    let mut dated = Dated {
        fund: Vec::new(alloc),
        gov: Vec::new(alloc),
        changes: Vec::new(alloc),
    };
    match open_watched(alloc, disk, &mut dated) {
        Ok(book) => Ok((book, dated)),
        Err(refused) => Err(refused),
    }
}
