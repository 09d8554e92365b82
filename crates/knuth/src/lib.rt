// The engine `KnuthAlgorithm` (knuth_algo.rs): its list over a row system, by dancing links. It sees nothing of trays.
// Assumed: that a lawful row system stands in the lent slices (`RowSystem` of rows), and that its links are few enough for theirs. Promised: `listing::list`
// emits the entries of `knuth_answers`, in order.
#![tactic(auto)]

mod building;
pub mod listing;
mod node;
mod search;
