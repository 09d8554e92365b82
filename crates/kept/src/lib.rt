// What both engines do with a packing that they have found: whether it is kept (`is_normal_form` of fast.rs), and its answer on the page.
// Assumed: that a lawful row system stands in the lent slices (`RowSystem` of rows), and that the rows found are different and within the copies (`Fillable`).
// Promised: `emit_kept` is one step of the definition's fold over the list, so the page does not depend on how a packing was found.
// (That a map is below the number of maps stays a clause, as an index below a length does.)
#![tactic(auto)]

pub mod emission;
mod normal_form;
pub mod path;
mod sorting;
mod starts;
pub mod wanted;
