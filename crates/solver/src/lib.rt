// One entry point for every engine (solver/mod.rs): a call is refused, or its row system is prepared, an engine lists over it, and the slices are cleared.
// The pieces come as a slice of records (`records`), or by value (`pages`). No public function of these two has a `requires`; nothing is assumed. Preparing
// and clearing (`prepare`, `clearing`) serve the call for a text (`dlx`) too.
#![tactic(auto)]

pub mod clearing;
pub mod pages;
pub mod prepare;
pub mod records;
