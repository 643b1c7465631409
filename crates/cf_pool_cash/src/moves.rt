//! Opening a journal, and what its entries move of cash.

ghost use Rattle.std.specs.Prelude.{◌≡◌, ◌<◌, ◌^◌, ◌++◌, IfOk, IfErr, OnOk};
ghost use Rattle.cf_journal_book.specs.Openings.{OpensBook, OpensNone};
ghost use Rattle.cf_pool_cash.specs.Moves as spec;
ghost use Rattle.cf_pool.specs.Balances.{sizes};

use cf_base::Day;
use cf_budget::LineChange;
use cf_calls::Entry;
use cf_chart::Chart;
use cf_disk::Disk;
use cf_journal_book::{Book, NotOpened, Watch, open_watched};
use cf_ledger::Post;
use cf_pool::CashMove;
use cf_post::accounts::CASH;
use cf_registers::Registers;
use std::alloc::{AllocError, Global};

/// The movements of cash that were seen.
#[derive(Drop)]
struct Gathered {
    moves: Vec<CashMove>,
}

impl Watch for Gathered {
    ghost has_seen = { λ g _ posted. g.moves.items ≡ spec.moves_in posted };

    fn see(
        &mut self,
        _chart: &Chart,
        _place: u64,
        entry: &Entry,
        _before: &Registers,
        _changes: &[LineChange],
        fund: &[Post],
        _gov: &[Post],
    ) -> Result<(), AllocError> {
        put_moves(&mut self.moves, entry.change.on, fund)
    }
}

/// Appends what a post of a day moves of cash, if anything.
fn put_move(moves: &mut Vec<CashMove>, on: Day, post: &Post) -> Result<(), AllocError>
    ensures { OnOk result (moves.new.items ≡ moves.old.items ++ spec.post_moves on post.now) }
{
    if post.account == CASH {
        moves.push(CashMove {
            on,
            fund: post.fund,
            amount: post.amount,
        })?;
    }
    Ok(())
}

/// Appends what the posts of a day move of cash.
fn put_moves(moves: &mut Vec<CashMove>, on: Day, posts: &[Post]) -> Result<(), AllocError>
    ensures { OnOk result (moves.new.items ≡ moves.old.items ++ spec.day_moves on posts.now) }
{
    for post in posts {
        put_move(moves, on, post)?;
    }
    Ok(())
}

/// Opens the book of the journal on a disk, as `cf_journal_book::open` does, and gathers what its
/// entries moved of each fund's cash, oldest first. No post is read twice.
pub fn open_with_moves<D: Disk + Drop>(
    alloc: Global,
    disk: D,
) -> Result<(Book<D>, Vec<CashMove>), NotOpened<D>>
    ensures ok { IfOk result
        (λ x. OpensBook D.tells D.content D.is_image D.moment D.was_image D.faults disk x.0) }
    ensures moves { IfOk result (λ x. x.1.items ≡ spec.moves_of x.0.plan x.0.entries) }
    ensures few { IfOk result (λ x. sizes x.1.items < 2 ^ 120) }
    ensures err { IfErr result
        (λ e. OpensNone D.tells D.content D.is_image D.moment D.was_image D.faults disk e.disk
        e.why) }
{
    let mut gathered = Gathered {
        moves: Vec::new(alloc),
    };
    match open_watched(alloc, disk, &mut gathered) {
        Ok(book) => {
            // The chart says how many functions there are, which bounds the sizes.
            let _few = book.chart().functions();
            Ok((book, gathered.moves))
        }
        Err(refused) => Err(refused),
    }
}
