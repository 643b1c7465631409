//! Replies to changing calls in JSON, which take no memory where there is room for them.

ghost use Rattle.std.specs.Prelude.{◌≡◌, ◌+◌, ◌*◌, ◌≤◌, [], ◌∷◌, ◌++◌, true, length, codes, IsOk, OnOk, OnErr, vec_len, vec_capacity};
ghost use Rattle.std.specs.List.{list_all};
ghost use Rattle.serde_json.specs.Data.{array, boolean};
ghost use Rattle.serde_json.specs.Written.{members_text};
ghost use Rattle.cf_calls.specs.declared.reply.Body.TheVariants as body;
ghost use Rattle.cf_json_members.specs.Objects.{count, fields, members, numbers_from, text_of};
ghost use Rattle.cf_json_members.specs.Parts.{is_plain};
ghost use Rattle.cf_json_replies.specs.Replies.{made_data, assets_of, was_fields, reply_data};

use crate::refusals::put_refusal;
use cf_calls::{Made, Refusal};
use cf_json_members::parts::Part::{Cents, Number, True};
use cf_json_members::parts::{put_field, put_head, put_numbers, put_object, put_quoted};
use std::alloc::AllocError;

/// Appends an object of one number.
fn put_one(out: &mut Vec<u8>, name: &str, n: u64) -> Result<(), AllocError>
    requires { list_all is_plain name.now ≡ true }
    ensures text { OnOk result
        (out.new.items ≡ out.old.items ++ text_of (fields ((name.now, count n) ∷ []))) }
    ensures longer { vec_len out.new ≤ vec_len out.old + (length name.now + 26) }
    ensures room { vec_len out.old + (length name.now + 26) ≤ vec_capacity out.old → IsOk result }
    ensures capacity { vec_capacity out.old ≤ vec_capacity out.new }
{
    put_object(out, &[(name, Number(n))])
}

/// Appends the numbers of a voucher and of its assets.
#[tactic(auto, unfolding(cf_json_members::specs::Objects::text_of))]
fn put_voucher(out: &mut Vec<u8>, number: u32, first: u32, assets: u16) -> Result<(), AllocError>
    ensures text { OnOk result
        (out.new.items ≡ out.old.items
        ++ text_of (fields ((codes "assets", array (numbers_from first assets))
        ∷ (codes "voucher", count number) ∷ []))) }
    ensures longer { vec_len out.new ≤ vec_len out.old + (80 + 21 * assets) }
    ensures room { vec_len out.old + (80 + 21 * assets) ≤ vec_capacity out.old → IsOk result }
    ensures capacity { vec_capacity out.old ≤ vec_capacity out.new }
{
    out.push(b'{')?;
    put_quoted(out, b"assets")?;
    out.push(b':')?;
    put_numbers(out, first, assets)?;
    out.push(b',')?;
    put_field(out, "voucher", &Number(number as u64))?;
    out.push(b'}')?;
    Ok(())
}

/// Appends what an accepted change made.
fn put_made(out: &mut Vec<u8>, made: &Made) -> Result<(), AllocError>
    ensures text { OnOk result (out.new.items ≡ out.old.items ++ text_of (made_data made.now)) }
    ensures longer { vec_len out.new ≤ vec_len out.old + (80 + 21 * assets_of made.now) }
    ensures room { vec_len out.old + (80 + 21 * assets_of made.now) ≤ vec_capacity out.old
        → IsOk result }
    ensures capacity { vec_capacity out.old ≤ vec_capacity out.new }
{
    match *made {
        Made::Nothing => put_object(out, &[]),
        Made::Requisition { number } => put_one(out, "requisition", number as u64),
        Made::Order { number } => put_one(out, "order", number as u64),
        Made::Voucher {
            number,
            first_asset,
            assets,
        } => put_voucher(out, number, first_asset, assets),
        Made::Bill { number } => put_one(out, "bill", number as u64),
        Made::Year { year } => put_one(out, "year", year as u64),
        Made::Asset { number } => put_one(out, "asset", number as u64),
        Made::Bond { number } => put_one(out, "bond", number as u64),
        Made::Lease { asset, bond } => put_object(
            out,
            &[
                ("asset", Number(asset as u64)),
                ("bond", Number(bond as u64)),
            ],
        ),
        Made::Paid {
            interest,
            principal,
        } => put_object(
            out,
            &[
                ("interest", Cents(interest)),
                ("principal", Cents(principal)),
            ],
        ),
    }
}

/// Appends the place of the earlier entry, where the call is a repeat, and the end of the reply.
#[tactic(auto, unfolding(cf_json_members::specs::Objects::text_of))]
fn put_was(out: &mut Vec<u8>, was: Option<u64>) -> Result<(), AllocError>
    ensures text { OnOk result
        (out.new.items ≡ out.old.items ++ members_text true (members (was_fields was))) }
    ensures longer { vec_len out.new ≤ vec_len out.old + 32 }
    ensures room { vec_len out.old + 32 ≤ vec_capacity out.old → IsOk result }
    ensures capacity { vec_capacity out.old ≤ vec_capacity out.new }
{
    match was {
        None => {
            out.push(b'}')?;
            Ok(())
        }
        Some(place) => {
            out.push(b',')?;
            put_field(out, "was", &Number(place))?;
            out.push(b'}')?;
            Ok(())
        }
    }
}

/// Appends the reply to an accepted change.
#[tactic(auto, unfolding(cf_json_members::specs::Objects::text_of))]
fn put_done(out: &mut Vec<u8>, at: u64, made: &Made, was: Option<u64>) -> Result<(), AllocError>
    ensures text { OnOk result
        (out.new.items ≡ out.old.items
        ++ text_of (reply_data (record { at = at; body = body.Done made.now was }))) }
    ensures longer { vec_len out.new ≤ vec_len out.old + (160 + 21 * assets_of made.now) }
    ensures room { vec_len out.old + (160 + 21 * assets_of made.now) ≤ vec_capacity out.old
        → IsOk result }
    ensures capacity { vec_capacity out.old ≤ vec_capacity out.new }
{
    put_head(out, "at", &Number(at), "ok")?;
    put_made(out, made)?;
    put_was(out, was)
}

/// Appends the reply to a refused call.
#[tactic(auto, unfolding(cf_json_members::specs::Objects::text_of))]
fn put_refused(out: &mut Vec<u8>, at: u64, refusal: &Refusal) -> Result<(), AllocError>
    ensures text { OnOk result
        (out.new.items ≡ out.old.items
        ++ text_of (reply_data (record { at = at; body = body.Refused refusal.now }))) }
    ensures longer { vec_len out.new ≤ vec_len out.old + 300 }
    ensures room { vec_len out.old + 300 ≤ vec_capacity out.old → IsOk result }
    ensures capacity { vec_capacity out.old ≤ vec_capacity out.new }
{
    put_head(out, "at", &Number(at), "no")?;
    put_refusal(out, refusal)?;
    out.push(b'}')?;
    Ok(())
}

/// How many assets a result lists.
fn assets(made: &Made) -> u16
    ensures { result ≡ assets_of made.now }
{
    match made {
        Made::Voucher { assets, .. } => *assets,
        _ => 0,
    }
}

/// Appends the reply to an accepted change, and keeps room for one byte more.
pub fn write_done(
    out: &mut Vec<u8>,
    at: u64,
    made: &Made,
    was: Option<u64>,
) -> Result<(), AllocError>
    ensures text { OnOk result
        (out.new.items ≡ out.old.items
        ++ text_of (reply_data (record { at = at; body = body.Done made.now was }))) }
    ensures room { vec_len out.old + 1024 ≤ vec_capacity out.old → assets_of made.now ≤ 32
        → IsOk result }
    ensures err { OnErr result (out.new.items ≡ out.old.items) }
    ensures capacity { vec_capacity out.old ≤ vec_capacity out.new }
    ensures newline { OnOk result (vec_len out.new + 1 ≤ vec_capacity out.new) }
{
    out.reserve(256 + 21 * usize::from(assets(made)))?;
    put_done(out, at, made, was)
}

/// Appends the reply to a refused call, and keeps room for one byte more.
pub fn write_refused(out: &mut Vec<u8>, at: u64, refusal: &Refusal) -> Result<(), AllocError>
    ensures text { OnOk result
        (out.new.items ≡ out.old.items
        ++ text_of (reply_data (record { at = at; body = body.Refused refusal.now }))) }
    ensures room { vec_len out.old + 1024 ≤ vec_capacity out.old → IsOk result }
    ensures err { OnErr result (out.new.items ≡ out.old.items) }
    ensures capacity { vec_capacity out.old ≤ vec_capacity out.new }
    ensures newline { OnOk result (vec_len out.new + 1 ≤ vec_capacity out.new) }
{
    out.reserve(512)?;
    put_refused(out, at, refusal)
}

/// Appends an object with one field, which is true, and keeps room for one byte more.
pub fn write_true(out: &mut Vec<u8>, name: &str) -> Result<(), AllocError>
    requires plain { list_all is_plain name.now ≡ true }
    requires short { length name.now ≤ 100 }
    ensures text { OnOk result
        (out.new.items ≡ out.old.items ++ text_of (fields ((name.now, boolean true) ∷ []))) }
    ensures room { vec_len out.old + 1024 ≤ vec_capacity out.old → IsOk result }
    ensures err { OnErr result (out.new.items ≡ out.old.items) }
    ensures capacity { vec_capacity out.old ≤ vec_capacity out.new }
    ensures newline { OnOk result (vec_len out.new + 1 ≤ vec_capacity out.new) }
{
    out.reserve(128)?;
    put_object(out, &[(name, True)])
}
