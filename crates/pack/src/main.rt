// Lists every packing of the tray on standard input. What is printed is made by proved functions, stretch by stretch (crate `output`):
// here it is only read and written.
#![tactic(auto)]

use std::process::ExitCode;
use streams::Room;

fn main(rt: HostRuntime) -> ExitCode {
    let ran = Room::new().run(&mut rt.stdin(), &mut rt.stdout());
    streams::report(&rt, "pack", ran)
}
