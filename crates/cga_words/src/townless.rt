ghost use Rattle.std.specs.Prelude.{◌≡◌, ◌⊎◌, ◌≤◌, Err, Ok, None, IfOk, IfSome, List, ℕ, Option, map, string_bytes, true, unwrap_or};
ghost use Rattle.cga_words.specs.Plain.{plain_words};
ghost use Rattle.cga_words.specs.Words.{IsTownless, decimals_of};

use crate::read::read_words;
use crate::words_fault::WordsFault;
use std::alloc::Global;

/// Reads the whole command line of a program that has no town, the program's name first: `--decimals N`, 0 to 9. Words
/// that `clap` refuses for another cause than memory are Usage, and so is a town. Takes memory.
pub fn read_decimals(alloc: Global, words: &[String]) -> Result<u8, WordsFault>
    ensures ok { IfOk result (λ decimals. IsTownless (map string_bytes words.now)
        × (decimals ≡ decimals_of (map string_bytes words.now))) }
    ensures few { IfOk result (λ decimals. decimals ≤ 9) }
    ensures usage { result ≡ Err WordsFault.Usage → IsTownless (map string_bytes words.now) → ⊥ }

    // Words that are written plainly are never refused but for memory, and say what they seem to.
    ensures plain { (name : List ℕ) (decimals : Option ℕ)
        → IfSome decimals (λ n. n ≤ 9)
        → map string_bytes words.now ≡ plain_words name true decimals None
        → (result ≡ Ok (unwrap_or decimals 6)) ⊎ (result ≡ Err WordsFault.NoMemory) }
{
    let wanted = match read_words(alloc, words) {
        Ok(wanted) => wanted,
        Err(fault) => return Err(fault),
    };
    match wanted.town {
        None => Ok(wanted.decimals),
        Some(_) => Err(WordsFault::Usage),
    }
}
