//! Runs of numbers compared.
ghost use Rattle.std.specs.Prelude.{◌≡◌, ◌≤◌, length, nat_eq, take};
ghost use Rattle.std.specs.Ordering.{nat_cmp};
ghost use Rattle.std.specs.Cmp.Lexicographic.{slice_cmp};
ghost use Rattle.cga_order.specs.Walk.{IsCommonLength};
ghost use lib.Pointwise.{pointwise};

use std::cmp::Ordering;

/// So many steps are compared at a time, since no step ends such a comparison.
const GROUP: usize = 16;

/// In how many numbers two runs agree.
pub(crate) fn common_length(xs: &[u16], ys: &[u16]) -> usize
    ensures { IsCommonLength xs.now ys.now result }
{
    let mut common = common_groups(xs, ys);
    while common < xs.len() && common < ys.len() && xs[common] == ys[common] {
        common += 1;
    }
    common
}

/// A number of steps in which two runs agree: so many whole groups from the first on.
fn common_groups(xs: &[u16], ys: &[u16]) -> usize
    ensures left { result ≤ length xs.now }
    ensures right { result ≤ length ys.now }
    ensures same { take result xs.now ≡ take result ys.now }
{
    let mut common = 0;
    let shorter = xs.len().min(ys.len());
    while GROUP <= shorter - common
        && same_steps(&xs[common..common + GROUP], &ys[common..common + GROUP])
    {
        common += GROUP;
    }
    common
}

/// Whether two runs are the same. Of runs of one length, which mostly are, no number ends the loop: it may look at many at
/// a time.
pub fn same_steps(left: &[u16], right: &[u16]) -> bool
    ensures { result ≡ pointwise nat_eq left.now right.now }
{
    if left.len() != right.len() {
        return false;
    }
    let mut same = true;
    for place in 0..left.len() {
        same &= left[place] == right[place];
    }
    same
}

/// How the first i numbers of a run and the first j of another compare, where it is known in how many the runs agree.
pub(crate) fn cmp_prefixes(xs: &[u16], i: usize, ys: &[u16], j: usize, common: usize) -> Ordering
    requires common { IsCommonLength xs.now ys.now common }
    requires left { i ≤ length xs.now }
    requires right { j ≤ length ys.now }
    ensures { result ≡ slice_cmp nat_cmp (take i xs.now) (take j ys.now) }
{
    if common < i && common < j {
        xs[common].cmp(&ys[common])
    } else {
        i.cmp(&j)
    }
}
