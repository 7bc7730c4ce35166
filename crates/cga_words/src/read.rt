ghost use Rattle.std.specs.Prelude.{◌≡◌, ◌≢◌, ◌⊎◌, ◌≤◌, IfOk, IfErr, IfSome, Err, Ok, [], map, string_bytes, codes, unwrap_or, List, ℕ, Option, Bool};
ghost use Rattle.clap.specs.Words.{fault_of, matches_of, rows_of, found_of, HasKind, Text};
ghost use Rattle.cga_words.specs.Words.{command_app, decimals_of, town_of, IsTown};
ghost use Rattle.cga_words.specs.Plain.{IsPlain, plain_words};
ghost use Rattle.cga_words.specs.Within.{IsFoundIn};

use crate::wanted::Wanted;
use crate::words_fault::WordsFault;
use clap::error::ErrorKind;
use clap::{Arg, ArgAction, ArgMatches, Command, Error};
use std::alloc::Global;

// What the program's command finds in the words.
fn matches<'a>(alloc: Global, words: &'a [String]) -> Result<ArgMatches<'a>, Error>
    ensures ok { IfOk result (λ m. (fault_of command_app (map string_bytes words.now) ≡ [])
        × (rows_of (found_of m) ≡ matches_of command_app (map string_bytes words.now))) }
    ensures err { IfErr result (λ e. HasKind (fault_of command_app (map string_bytes words.now)) e) }
    ensures decimals { IfOk result (λ m. IsFoundIn (codes "decimals") 0 9 (found_of m)) }
    ensures town { IfOk result (λ m. IsFoundIn (codes "town") 1 200 (found_of m)) }
{
    let decimals = Arg::new(alloc, "decimals")
        .long("decimals")
        .action(ArgAction::Set)
        .value_parser(clap::value_parser!(u8).range(0..10))
        .default_value("6");
    let town = Arg::new(alloc, "town")
        .long("town")
        .action(ArgAction::Set)
        .value_parser(clap::value_parser!(u32).range(1..201));
    let command = Command::new(alloc, "cga_city")
        .disable_help_flag(true)
        .disable_version_flag(true)
        .arg(decimals)?
        .arg(town)?;
    let parse = command.try_get_matches_from(words);
    parse
}

// The decimals that were found.
fn decimals_in(matches: &ArgMatches) -> u8
    requires { IsFoundIn (codes "decimals") 0 9 (found_of matches.now) }
    ensures value { (words : List Text) → rows_of (found_of matches.now) ≡ matches_of command_app words
        → result ≡ decimals_of words }
    ensures few { result ≤ 9 }
{
    matches.get_one::<u8>("decimals").unwrap_or(6)
}

// The lots of the town, where they were found.
fn town_in(matches: &ArgMatches) -> Option<u32>
    requires { IsFoundIn (codes "town") 1 200 (found_of matches.now) }
    ensures value { (words : List Text) → rows_of (found_of matches.now) ≡ matches_of command_app words
        → result ≡ town_of words }
    ensures within { IfSome result IsTown }
{
    matches.get_one::<u32>("town")
}

/// Reads the words of the whole command line, the program's name first: `--decimals N`, 0 to 9, and `--town N`, 1 to
/// 200, each at most once and in either order. Words that `clap` refuses for another cause than memory are Usage.
/// Takes memory.
pub fn read_words(alloc: Global, words: &[String]) -> Result<Wanted, WordsFault>
    ensures ok { IfOk result (λ wanted. (fault_of command_app (map string_bytes words.now) ≡ [])
        × (wanted.decimals ≡ decimals_of (map string_bytes words.now))
        × (wanted.town ≡ town_of (map string_bytes words.now))) }
    ensures decimals { IfOk result (λ wanted. wanted.decimals ≤ 9) }
    ensures town { IfOk result (λ wanted. IfSome wanted.town IsTown) }
    ensures usage { result ≡ Err WordsFault.Usage
        → fault_of command_app (map string_bytes words.now) ≢ [] }

    // Words that are written plainly are never refused but for memory, and say what they seem to.
    ensures plain { (name : List ℕ) (first : Bool) (decimals town : Option ℕ)
        → IsPlain decimals town
        → map string_bytes words.now ≡ plain_words name first decimals town
        → (result ≡ Ok (record { decimals = unwrap_or decimals 6; town = town }))
        ⊎ (result ≡ Err WordsFault.NoMemory) }
{
    match matches(alloc, words) {
        Err(error) if error.kind() == ErrorKind::OutOfMemory => Err(WordsFault::NoMemory),
        Err(_) => Err(WordsFault::Usage),
        Ok(matches) => Ok(Wanted {
            decimals: decimals_in(&matches),
            town: town_in(&matches),
        }),
    }
}
