//! What is received of revenue sources.

ghost use Rattle.std.specs.Prelude.{◌≡◌, ◌++◌, ◌<◌, ◌^◌, unsigned_abs, OnOk, true};
ghost use Rattle.std.specs.List.{All};
ghost use Rattle.cf_office_rows.specs.Entries as spec;
ghost use Rattle.cf_office_rows.specs.Rows.{kept};

use crate::rows::{LedgerRow, NOTHING, Origin, put};
use cf_calls::{Act, Drawn};
use cf_ledger::Post;
use std::alloc::AllocError;

/// The bill that an act enters, collects or writes off; 0 for other acts.
pub fn bill_by(drawn: Drawn, act: &Act) -> u32
    ensures { result ≡ spec.bill_by drawn act.now }
{
    match act {
        Act::Bill(_) => drawn.number,
        Act::Collect(part) => part.bill,
        Act::WriteOff(part) => part.bill,
        Act::Adopt(_)
        | Act::Amend(_)
        | Act::Transfer(_)
        | Act::Requisition(_)
        | Act::Withdraw(_)
        | Act::Order(_)
        | Act::ChangeOrder(_)
        | Act::CancelOrder(_)
        | Act::Voucher(_)
        | Act::VoidVoucher(_)
        | Act::Pay(_)
        | Act::Receive(_)
        | Act::Asset(_)
        | Act::Issue(_)
        | Act::PayDue(_)
        | Act::Leave(_)
        | Act::Interfund(_)
        | Act::Close(_)
        | Act::Lease(_) => 0,
    }
}

/// Whether a post is on the account of a source.
fn is_revenue(post: &Post) -> bool
    ensures { result ≡ spec.is_revenue post.now }
{
    400_000 < post.account && post.account < 410_000
}

/// The row of a post on a source's account.
fn received(place: u64, bill: u32, post: &Post) -> LedgerRow
    requires revenue { spec.is_revenue post.now ≡ true }
    requires small { unsigned_abs post.now.amount < 2 ^ 127 }
    ensures { result ≡ spec.received_row place bill post.now }
{
    let mut by = NOTHING;
    by.received = 0 - post.amount;
    LedgerRow {
        of: Origin {
            place,
            document: bill,
            item: 0,
        },
        fund: post.fund,
        dept: 0,
        object: 0,
        line: None,
        source: Some((post.account - 400_000) as u16),
        year: post.year,
        by,
    }
}

/// Adds the row of a post, where it is on a source's account.
fn put_post(out: &mut Vec<LedgerRow>, place: u64, bill: u32, post: &Post) -> Result<(), AllocError>
    requires { unsigned_abs post.now.amount < 2 ^ 127 }
    ensures { OnOk result (out.new.items
        ≡ out.old.items ++ kept (spec.post_rows place bill post.now)) }
{
    if is_revenue(post) {
        put(out, received(place, bill, post))
    } else {
        Ok(())
    }
}

/// Adds the rows of an entry's posts on the fund basis that are on sources' accounts.
pub fn put_received(
    out: &mut Vec<LedgerRow>,
    place: u64,
    bill: u32,
    posts: &[Post],
) -> Result<(), AllocError>
    requires { All (λ p. unsigned_abs p.amount < 2 ^ 127) posts.now }
    ensures { OnOk result (out.new.items
        ≡ out.old.items ++ kept (spec.received_rows place bill posts.now)) }
{
    for post in posts {
        put_post(out, place, bill, post)?;
    }
    Ok(())
}
