//! What closing a fiscal year means: that nothing is posted to it any more, and that its lines'
//! numbers stay. There is no code here: `specs/` says it of a history, and `proofs/` that it holds
//! of each legal one.
#![tactic(auto)]
