ghost use Rattle.std.specs.Prelude.{◌≡◌, ◌≢◌, IsOk, IfErr, Err, List, ℕ, [], ◌∷◌, map, string_bytes};
ghost use Rattle.clap.specs.Words.{HasKind, fault_of};
ghost use Rattle.cga_words.specs.Words.{wordless_app};

use crate::words_fault::WordsFault;
use clap::error::ErrorKind;
use clap::{Command, Error};
use std::alloc::Global;

// Whether a command without options takes the words.
fn take_none(alloc: Global, words: &[String]) -> Result<(), Error>
    ensures ok { IsOk result → fault_of wordless_app (map string_bytes words.now) ≡ [] }
    ensures err { IfErr result (λ e. HasKind (fault_of wordless_app (map string_bytes words.now)) e) }
{
    let command = Command::new(alloc, "cga_live")
        .disable_help_flag(true)
        .disable_version_flag(true);
    match command.try_get_matches_from(words) {
        Ok(_) => Ok(()),
        Err(error) => Err(error),
    }
}

/// Reads the whole command line of a program that takes no words, which is its name alone. Words that `clap` refuses for
/// another cause than memory are Usage. Takes memory.
pub fn read_none(alloc: Global, words: &[String]) -> Result<(), WordsFault>
    ensures ok { IsOk result → fault_of wordless_app (map string_bytes words.now) ≡ [] }
    ensures usage { result ≡ Err WordsFault.Usage
        → fault_of wordless_app (map string_bytes words.now) ≢ [] }
    ensures alone { (name : List ℕ) → map string_bytes words.now ≡ name ∷ []
        → result ≢ Err WordsFault.Usage }
{
    match take_none(alloc, words) {
        Err(error) if error.kind() == ErrorKind::OutOfMemory => Err(WordsFault::NoMemory),
        Err(_) => Err(WordsFault::Usage),
        Ok(()) => Ok(()),
    }
}
