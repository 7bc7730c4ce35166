//! Ranks and stamps.
ghost use Rattle.std.specs.Prelude.{◌≡◌, ◌+◌, length};
ghost use Rattle.cga_order.specs.Chain.{IsWhole};
ghost use Rattle.cga_order.specs.Seen.{chain_of};

use cga_order::{Chain, cmp_rank, cmp_stamp, head_of};
use cga_word::{Mode, Name};
use std::cmp::Ordering;
use std::process::Abort;

fn name(rt: &impl Abort) -> Name {
    Name::read(b"p").expect(rt, "a name")
}

fn chain<'a>(lot: Name, path: &'a [u16], priorities: &'a [u16]) -> Chain<'a>
    requires { length priorities.now ≡ length path.now + 1 }
    ensures { IsWhole (chain_of result) }
{
    Chain {
        lot,
        path,
        priorities,
        head: head_of(priorities),
    }
}

// a -> b c, with the priorities 1, 3 and 2, and c -> d with the priority 1.
#[test]
fn stamps_of_four_shapes(rt: HostRuntime) {
    let lot = name(&rt);
    let a = chain(lot, &[], &[1]);
    let b = chain(lot, &[0], &[1, 3]);
    let c = chain(lot, &[1], &[1, 2]);
    let d = chain(lot, &[1, 0], &[1, 2, 1]);
    assert_eq!(rt; cmp_stamp(Mode::Breadth, &a, &c), Ordering::Less);
    assert_eq!(rt; cmp_stamp(Mode::Breadth, &c, &d), Ordering::Less);
    assert_eq!(rt; cmp_stamp(Mode::Breadth, &d, &b), Ordering::Less);
    assert_eq!(rt; cmp_stamp(Mode::Breadth, &b, &b), Ordering::Equal);
    assert_eq!(rt; cmp_rank(Mode::Breadth, &d, &c), Ordering::Less);
    assert_eq!(rt; cmp_rank(Mode::Breadth, &c, &b), Ordering::Less);
}

// a -> b c and b -> d, all of one priority.
#[test]
fn two_modes(rt: HostRuntime) {
    let lot = name(&rt);
    let b = chain(lot, &[0], &[1, 1]);
    let c = chain(lot, &[1], &[1, 1]);
    let d = chain(lot, &[0, 0], &[1, 1, 1]);
    for mode in [Mode::Breadth, Mode::Depth] {
        assert_eq!(rt; cmp_stamp(mode, &b, &c), Ordering::Less);
        assert_eq!(rt; cmp_stamp(mode, &b, &d), Ordering::Less);
    }
    assert_eq!(rt; cmp_stamp(Mode::Breadth, &d, &c), Ordering::Greater);
    assert_eq!(rt; cmp_stamp(Mode::Depth, &d, &c), Ordering::Less);
}
