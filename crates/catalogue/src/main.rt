// Lists all pieces of so many cells: reads a request on standard input and writes a line for each piece, that can be pasted into a tray's file. What is printed
// is made by a proved function, all at once (crate `catalogue_output`): here it is only read and written.
#![tactic(auto)]

use std::process::ExitCode;
use streams::CatalogueRoom;

fn main(rt: HostRuntime) -> ExitCode {
    let ran = CatalogueRoom::new().run(&mut rt.stdin(), &mut rt.stdout());
    streams::report(&rt, "catalogue", ran)
}
