ghost use Rattle.std.specs.Prelude.{◌≡◌};
ghost use Rattle.std.specs.Process.{exit_status};

use crate::exit::Exit;
use std::process::ExitCode;

/// Writes the line on standard error, if there is one, and gives the exit status to the system.
pub fn end(rt: &HostRuntime, exit: Exit) -> ExitCode
    ensures { exit_status result ≡ exit.status }
{
    if exit.status != 0 {
        let _ = eprintln!(rt; "{}{}{}", exit.before, exit.name, exit.behind);
    }
    ExitCode::from(exit.status)
}
