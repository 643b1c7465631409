//! Calls, entries, refusals and replies: the words that every layer of the office shares.
#![tactic(auto)]

pub mod acts;
mod call;
mod distinct;
mod entry;
pub mod items;
mod kind;
mod list;
mod names;
mod read;
mod refusal;
mod reply;
mod role;
mod same;
pub mod shown;
mod text;

pub use acts::Act;
pub use call::{Call, Change, Look};
pub use distinct::are_distinct;
pub use entry::{Drawn, Entry, entry_of};
pub use kind::{ActKind, CallRow, Draws};
pub use list::List;
pub use names::{DocumentKind, NameKind};
pub use read::{Basis, Read};
pub use refusal::{AssetFault, DocumentState, Refusal, refusal_name};
pub use reply::{Amounts, Body, Made, Posted, Reply, Row, Verdict};
pub use role::{Role, has_role, role_of};
pub use same::same_call;
pub use shown::{LineNumbers, Shown};
pub use text::{Key, Label, Text};
