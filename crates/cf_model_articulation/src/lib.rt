//! What it means that a city's statements articulate: that the same amounts stand in them. `specs/`
//! says it of a history, and `proofs/` that it holds of each legal one, under any chart that was
//! read. The only code here is that of the worked rows' clauses.
#![tactic(auto)]

mod laws;

pub use laws::worked_levels;
