// How a program ends that reads a text and writes what it prints for it.
ghost use Rattle.std.specs.Prelude.{◌≡◌};
ghost use Rattle.std.specs.Process.{exit_status};
ghost use Rattle.streams.specs.Running.{ended, status_of};

use std::io;
use std::process::ExitCode;
use thiserror::Error;

// Why a program did not do what it is for.
#[derive(Debug, Drop, Error)]
pub enum Failure {
    #[error("the input could not be read: {0}")]
    Read(io::Error),
    #[error("the output could not be written: {0}")]
    Write(io::Error),
}

// How a run ended whose text was read and printed so: a write that failed is told before a read that did.
pub(crate) fn ended(read: io::Result<()>, printed: io::Result<()>) -> Result<(), Failure>
    ensures { result ≡ ended read printed }
{
    match (read, printed) {
        (_, Err(why)) => Err(Failure::Write(why)),
        (Err(why), Ok(())) => Err(Failure::Read(why)),
        (Ok(()), Ok(())) => Ok(()),
    }
}

// The status of a program: 0 where the whole was printed, 1 where a write failed, 2 where a read did; the reason of a failure goes to the standard error.
pub fn report<E: Eprint>(rt: &E, program: &str, ran: Result<(), Failure>) -> ExitCode
    ensures { exit_status result ≡ status_of ran }
{
    let Err(failure) = ran else {
        return ExitCode::SUCCESS;
    };
    let status = match failure {
        Failure::Write(_) => 1,
        Failure::Read(_) => 2,
    };
    // a reason that cannot be told changes no status
    let _ = eprintln!(rt; "{program}: {failure}");
    ExitCode::from(status)
}
