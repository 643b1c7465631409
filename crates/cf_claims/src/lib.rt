//! What a grantor is billed for: the share of paid vouchers that a grant pays, up to its award.
#![tactic(auto)]

mod billed;
mod bills;
mod eligible;
mod laws;
mod marks;
mod standing;
mod text;

pub use bills::claims;
pub use laws::worked_grants;
pub use standing::{ClaimState, GrantVoucher, grant_vouchers, vouchers_of_grant};
pub use text::claim_text;
