// A tray handed to Knuth's DLX1 (document 02, A2): the text that it reads, made of a row system, and the call that writes it. Nothing is assumed: the call
// takes every input, with the pieces by value (`calls`) or as a slice of records (`records`).
#![tactic(auto)]

pub mod calls;
mod lines;
pub mod records;
mod text;
