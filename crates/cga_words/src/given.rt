ghost use Rattle.std.specs.Prelude.{◌≡◌, IfErr, IfOk, IsErrAnd, MatchResult};
ghost use Rattle.std.specs.IoError.{error_kind};
ghost use Rattle.std.specs.Vec.Iter.{into_iter_items};
ghost use Rattle.cga_words.specs.Exits.{line_in, line_of, refusal_line, refusal_of};

use crate::exit::{Exit, exit_of, unreadable};
use crate::program_name::ProgramName;
use crate::status::Status;
use std::alloc::Global;
use std::env::Args;
use std::io;
use std::io::ErrorKind;

/// The words of the command line as the system gives them, the program's name first; where it doesn't give them, how the
/// program of this name ends. Takes memory.
pub fn given_words(
    alloc: Global,
    name: ProgramName,
    found: io::Result<Args>,
) -> Result<Vec<String>, Exit>
    ensures given { IfOk found (λ given. MatchResult result (λ words. words.items ≡ into_iter_items given)
        (λ exit. (exit.status ≡ 6) × (line_in exit ≡ line_of name Status.NoMemory))) }
    ensures refused { IfErr found (λ error. IsErrAnd result (λ exit.
        (exit.status ≡ refusal_of (error_kind error)) × (line_in exit ≡ refusal_line name (error_kind error)))) }
{
    match found {
        Ok(words) => match words.collect(alloc) {
            Ok(words) => Ok(words),
            Err(_) => Err(exit_of(name, Status::NoMemory)),
        },
        Err(error) if error.kind() == ErrorKind::OutOfMemory => {
            Err(exit_of(name, Status::NoMemory))
        }
        Err(_) => Err(unreadable(name)),
    }
}
