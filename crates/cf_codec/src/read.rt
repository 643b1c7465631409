//! An entry read from its payload.

ghost use Rattle.std.specs.Prelude.{◌≡◌, ◌++◌, ℕ, List, length, IfOk, Ok};
ghost use Rattle.cf_calls.specs.declared.entry.Entry.{Entry};
ghost use Rattle.cf_codec.specs.Answers.{Answers};
ghost use Rattle.cf_codec_fields.specs.Readings.{Gives};
ghost use Rattle.cf_codec.specs.Entries as spec;
ghost use Rattle.cf_codec.specs.Entries.{BeginsWith, HasPayload, IsOf, payload, read_of};
ghost use Rattle.cf_codec_fields.specs.Kinds.{kind_in};

use crate::fault::{CodecFault, CodecRefused};
use crate::take_acts::take_act;
use cf_base::Day;
use cf_calls::{ActKind, Change, Drawn, Draws, Entry};
use cf_codec_fields::Refused;
use cf_codec_fields::kind::is_of;
use cf_codec_fields::take::{faulty, take_day, take_half, take_key, take_kind, take_word};
use std::alloc::Global;

/// Whether an entry of a kind may be dated so: a bond is issued, and a lease begins, on one of the
/// first 28 days of a month.
fn may_be_on(kind: ActKind, on: Day) -> bool
    ensures { result ≡ spec.may_be_on kind on }
{
    match kind {
        ActKind::Issue | ActKind::Lease => on.day <= 28,
        _ => true,
    }
}

/// The kind of an entry, of those of a version.
fn take_kind_in(version: u8, bytes: &[u8]) -> Result<(ActKind, &[u8]), Refused>
    ensures { Gives (λ x. (x.0, x.1.now)) result ((kind_in version).read bytes.now) }
{
    let (kind, rest) = take_kind(bytes)?;
    if is_of(version, kind) {
        Ok((kind, rest))
    } else {
        Err(faulty(bytes))
    }
}

/// The day of an entry of a kind.
fn take_on(kind: ActKind, bytes: &[u8]) -> Result<(Day, &[u8]), Refused>
    ensures { Gives (λ x. (x.0, x.1.now)) result ((spec.on_for kind).read bytes.now) }
{
    let (on, rest) = take_day(bytes)?;
    if may_be_on(kind, on) {
        Ok((on, rest))
    } else {
        Err(faulty(bytes))
    }
}

fn take_one_drawn(bytes: &[u8]) -> Result<(Drawn, &[u8]), Refused>
    ensures { Gives (λ x. (x.0, x.1.now)) result (spec.one_drawn.read bytes.now) }
{
    let (number, rest) = take_word(bytes)?;
    Ok((Drawn { number, second: 0 }, rest))
}

fn take_two_drawn(bytes: &[u8]) -> Result<(Drawn, &[u8]), Refused>
    ensures { Gives (λ x. (x.0, x.1.now)) result (spec.two_drawn.read bytes.now) }
{
    let (number, rest) = take_word(bytes)?;
    let (second, rest) = take_word(rest)?;
    Ok((Drawn { number, second }, rest))
}

fn take_payment_drawn(bytes: &[u8]) -> Result<(Drawn, &[u8]), Refused>
    ensures { Gives (λ x. (x.0, x.1.now)) result (spec.payment_drawn.read bytes.now) }
{
    let (number, rest) = take_half(bytes)?;
    let number = u32::from(number);
    Ok((Drawn { number, second: 0 }, rest))
}

/// Drawn numbers.
fn take_drawn(draws: Draws, bytes: &[u8]) -> Result<(Drawn, &[u8]), Refused>
    ensures { Gives (λ x. (x.0, x.1.now)) result ((spec.drawn_as draws).read bytes.now) }
{
    match draws {
        Draws::Nothing => {
            let none = Drawn {
                number: 0,
                second: 0,
            };
            Ok((none, bytes))
        }
        Draws::Number => take_one_drawn(bytes),
        Draws::Both => take_two_drawn(bytes),
        Draws::Payment => take_payment_drawn(bytes),
    }
}

fn take_entry(alloc: Global, bytes: &[u8], version: u8) -> Result<(Entry, &[u8]), Refused>
    ensures { Gives (λ x. (x.0, x.1.now)) result ((spec.entry_in version).read bytes.now) }
{
    let (kind, rest) = take_kind_in(version, bytes)?;
    let (desk, rest) = take_half(rest)?;
    let (key, rest) = take_key(alloc, rest)?;
    let (on, rest) = take_on(kind, rest)?;
    let (act, rest) = take_act(alloc, kind, on, rest)?;
    let (drawn, rest) = take_drawn(act.draws(), rest)?;
    let change = Change {
        desk,
        key,
        on,
        after: None,
        act,
    };
    Ok((Entry { change, drawn }, rest))
}

/// The entry and the length of its payload, or the offset of the first faulty field.
#[tactic(auto, unfolding(crate::specs::Entries::read_of))]
fn entry_at(alloc: Global, bytes: &[u8], version: u8) -> Result<(Entry, usize), CodecRefused>
    ensures { Answers result (read_of version bytes.now) }
{
    match take_entry(alloc, bytes, version) {
        Ok((entry, rest)) => Ok((entry, bytes.len() - rest.len())),
        Err(Refused::Faulty(left)) => {
            let offset = bytes.len() - left;
            Err(CodecRefused::Fault(CodecFault { offset }))
        }
        Err(Refused::NoMemory) => Err(CodecRefused::NoMemory),
    }
}

/// The entry whose payload the first of these bytes are in the grammar of a version, 1 or 2, and
/// how many they are. Otherwise the offset of the first faulty field, or `NoMemory`.
pub fn read_entry(alloc: Global, bytes: &[u8], version: u8) -> Result<(Entry, usize), CodecRefused>
    // What is read has a payload, which stands at the front, and is of the version.
    ensures found { IfOk result (λ x. BeginsWith bytes.now x.0 x.1) }
    ensures of { IfOk result (λ x. IsOf version x.0) }

    // Where a payload of the version stands at the front its entry is read, unless there is no
    // memory.
    ensures only { (e : Entry) (rest : List ℕ) → HasPayload e → IsOf version e
        → bytes.now ≡ payload e ++ rest
        → Answers result (Ok (e, length (payload e))) }

    // Which entry it is, or which field is faulty.
    ensures answer { Answers result (read_of version bytes.now) }
{
    entry_at(alloc, bytes, version)
}
