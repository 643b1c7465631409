//! The assets in service: those that the close of a month may still charge, by their places among
//! all assets.

ghost use Rattle.std.specs.Prelude.{◌≡◌, ◌≤◌, ◌<◌, vec_len, vec_capacity};
ghost use Rattle.std.specs.List.{filter};
ghost use Rattle.cf_assets.specs.Serving as spec;
ghost use Rattle.cf_assets.specs.Serving.{enlisted};

use crate::rows::{AssetRow, StageNow};

/// Whether an asset may still be charged, once so many months are closed: it is held, and its life
/// isn't over. Land, whose life is 0, never is.
fn serves(row: &AssetRow, months: u32) -> bool
    ensures { result ≡ spec.serves months row.now }
{
    match row.stage {
        StageNow::Held => months.saturating_sub(u32::from(row.service)) < u32::from(row.life),
        StageNow::Void | StageNow::Disposed { .. } => false,
    }
}

fn serves_at(rows: &[AssetRow], at: u32, months: u32) -> bool
    ensures { result ≡ spec.serves_at months rows.now at }
{
    match rows.get(at as usize) {
        None => false,
        Some(row) => serves(row, months),
    }
}

/// Takes in the place of a new asset, unless it is land. It takes no memory.
pub fn enlist(serving: &mut Vec<u32>, at: u32, row: &AssetRow)
    requires { vec_len serving.old < vec_capacity serving.old }
    ensures items { serving.new.items ≡ enlisted at row.now serving.old.items }
    ensures room { vec_capacity serving.old ≤ vec_capacity serving.new }
{
    if row.life > 0 {
        serving.push_reserved(at);
    }
}

/// Leaves out the assets that no later month charges.
pub fn retire(serving: &mut Vec<u32>, rows: &[AssetRow], months: u32)
    ensures { serving.new.items ≡ filter (spec.serves_at months rows.now) serving.old.items }
{
    serving.retain(|at| serves_at(rows, *at, months));
}
