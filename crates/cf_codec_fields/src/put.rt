//! The writers of single fields. Each is called where there is room for its bytes.

ghost use Rattle.std.specs.Prelude.{◌≡◌, true};
ghost use Rattle.cf_base.specs.Common.{is_day};
ghost use Rattle.cf_calls.specs.Common.{is_key};
ghost use Rattle.cf_codec_fields.specs.Fields as spec;
ghost use Rattle.cf_codec_fields.specs.Kinds as kinds;
ghost use Rattle.cf_codec_fields.specs.Puts.{HasRoom, Puts};

use crate::kind::move_code;
use cf_base::{Day, Month};
use cf_calls::acts::FundMoveKind;
use cf_calls::{ActKind, Key};

/// A number of 1 byte.
#[tactic(auto, unfolding(crate::specs::Formats::number_bytes))]
pub fn put_byte(out: &mut Vec<u8>, n: u8)
    requires { HasRoom spec.byte n out.old }
    ensures { Puts spec.byte n out.old out.new }
{
    let _ = out.extend_from_slice(&n.to_be_bytes());
}

/// A number of 2 bytes, the highest first, as all numbers.
#[tactic(auto, unfolding(crate::specs::Formats::number_bytes))]
pub fn put_half(out: &mut Vec<u8>, n: u16)
    requires { HasRoom spec.half n out.old }
    ensures { Puts spec.half n out.old out.new }
{
    let _ = out.extend_from_slice(&n.to_be_bytes());
}

/// A number of 4 bytes.
#[tactic(auto, unfolding(crate::specs::Formats::number_bytes))]
pub fn put_word(out: &mut Vec<u8>, n: u32)
    requires { HasRoom spec.word n out.old }
    ensures { Puts spec.word n out.old out.new }
{
    let _ = out.extend_from_slice(&n.to_be_bytes());
}

/// A number of 8 bytes.
#[tactic(auto, unfolding(crate::specs::Formats::number_bytes))]
pub fn put_long(out: &mut Vec<u8>, n: u64)
    requires { HasRoom spec.long n out.old }
    ensures { Puts spec.long n out.old out.new }
{
    let _ = out.extend_from_slice(&n.to_be_bytes());
}

/// False as 0, true as 1.
pub fn put_flag(out: &mut Vec<u8>, flag: bool)
    requires { HasRoom spec.flag flag out.old }
    ensures { Puts spec.flag flag out.old out.new }
{
    put_byte(out, u8::from(flag));
}

/// Whether the amount is below 0, and its size.
pub fn put_signed(out: &mut Vec<u8>, amount: i64)
    requires { HasRoom spec.signed amount out.old }
    ensures { Puts spec.signed amount out.old out.new }
{
    put_flag(out, amount < 0);
    put_long(out, amount.unsigned_abs());
}

/// The year of a month, and its number in the year.
pub fn put_month(out: &mut Vec<u8>, month: Month)
    requires { HasRoom spec.month month out.old }
    ensures { Puts spec.month month out.old out.new }
{
    put_half(out, month.year);
    put_byte(out, month.month);
}

/// The number of the day, from 1970-01-01 on.
#[tactic(auto, unfolding(crate::specs::Fields::day_code))]
pub fn put_day(out: &mut Vec<u8>, day: Day)
    requires form { is_day day ≡ true }
    requires room { HasRoom spec.day day out.old }
    ensures { Puts spec.day day out.old out.new }
{
    put_word(out, day.number().unsigned_abs());
}

/// The length of the key, and its bytes.
pub fn put_key(out: &mut Vec<u8>, key: &Key)
    requires form { is_key key.now ≡ true }
    requires room { HasRoom spec.key key.now out.old }
    ensures { Puts spec.key key.now out.old out.new }
{
    let bytes = key.as_str().as_bytes();
    let _ = out.push(bytes.len() as u8);
    let _ = out.extend_from_slice(bytes);
}

/// The number of the kind of an entry.
pub fn put_kind(out: &mut Vec<u8>, kind: ActKind)
    requires { HasRoom kinds.kind kind out.old }
    ensures { Puts kinds.kind kind out.old out.new }
{
    put_byte(out, kind.row().code);
}

/// The number of the kind of a movement of cash.
pub fn put_move_kind(out: &mut Vec<u8>, kind: FundMoveKind)
    requires { HasRoom kinds.move_kind kind out.old }
    ensures { Puts kinds.move_kind kind out.old out.new }
{
    put_byte(out, move_code(kind));
}
