// The texts of `pack`: the file that it reads, and `dlx1` too, as records, cells and a configuration, and the lines that it prints.
//
// Every function here is proved, and the crate assumes nothing. `reading::read_file` takes any text and says whether it is a file; the
// functions of `printing` ask for room in their buffer. `split_line` and `fields` are there for another text of lines and fields too.
#![tactic(auto)]

pub mod fields;
mod grids;
mod lines;
pub mod printing;
pub mod reading;

pub use lines::split_line;
