// The engine `Fast` (fast.rs): its list over a row system. It sees nothing of trays.
// Assumed: that a lawful row system stands in the lent slices (`RowSystem` of rows). Promised: `listing::list` emits the entries of `fast_answers`, in order;
// of an accepted tray's system they are document 01's (proofs/FastListLaws, `fast-answers`).
// (A kind below 16, and a kind with a copy left: numbers within their bounds stay clauses, as an index does.)
#![tactic(auto)]

pub mod listing;
mod pruning;
mod search;
mod state;
