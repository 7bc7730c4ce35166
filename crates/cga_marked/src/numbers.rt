ghost use Rattle.std.specs.Prelude.{◌≡◌, ◌+◌, ◌<◌, ◌≤◌, ◌^◌, cond};
ghost use Rattle.slab.specs.Slab.{get};
ghost use Rattle.cga_marked.specs.Sorts.{AreOf, WereOf, sort_of};

use crate::marked::Marked;
use crate::sort::Sort;
use slab::Slab;

/// How many entries there are of each sort that counts.
#[derive(Clone, Copy, Debug)]
pub struct Numbers {
    pub first: usize,
    pub second: usize,
}

/// In which number the entry at a place counts.
pub fn sort_at<E: Marked>(entries: &Slab<E>, id: usize) -> Sort
    ensures { result ≡ sort_of E.counts (get entries.now id) }
{
    match entries.get(id) {
        Some(entry) => entry.counts_as(),
        None => Sort::Other,
    }
}

/// One was counted, or is, or both.
fn counted(number: usize, was: bool, is: bool) -> usize
    requires had { cond was 1 0 ≤ number }
    requires fits { number + cond is 1 0 < 2 ^ 64 + cond was 1 0 }
    ensures { result + cond was 1 0 ≡ number + cond is 1 0 }
{
    let rest = if was { number - 1 } else { number };
    if is { rest + 1 } else { rest }
}

/// The numbers after one entry changed, came or went, which was of that sort.
pub fn recounted<E: Marked>(numbers: Numbers, was: Sort, entries: &Slab<E>, id: usize) -> Numbers
    requires { WereOf E.counts was id entries.now.slots numbers }
    ensures { AreOf E.counts entries.now.slots result }
{
    let is = sort_at(entries, id);
    let _most = entries.len(); // for the proof
    Numbers {
        first: counted(numbers.first, was.is_first(), is.is_first()),
        second: counted(numbers.second, was.is_second(), is.is_second()),
    }
}
