// Hands the tray on standard input to Knuth's DLX1: writes the text that it reads. What is printed is made by a proved function, all at once (crate
// `dlx_output`): here it is only read and written.
#![tactic(auto)]

use std::process::ExitCode;
use streams::Dlx1Room;

fn main(rt: HostRuntime) -> ExitCode {
    let ran = Dlx1Room::new().run(&mut rt.stdin(), &mut rt.stdout());
    streams::report(&rt, "dlx1", ran)
}
