ghost use Rattle.std.specs.Prelude.{◌≡◌, ◌∷◌, ◌++◌, [], List, length};
ghost use Rattle.cga_frame.specs.Box.{Box};
ghost use Rattle.cga_derive.specs.Streaks.{AreStreaks, IsStreak};

use cga_frame::WorldBox;

/// Members in a row, up to one of them: the first, and a box that holds the boxes of all.
#[derive(Clone, Copy, Debug)]
pub struct Streak {
    pub first: usize,
    pub hull: WorldBox,
}

/// The streak that ends with a member behind these, whose box is given. It is joined with the streak before
/// it as long as that has as many members, so few streaks cover any list.
pub fn next_streak(streaks: &[Streak], own: WorldBox) -> Streak
    requires { (boxes : List Box) × AreStreaks boxes streaks.now }
    ensures { (boxes : List Box) → AreStreaks boxes streaks.now
        → IsStreak (boxes ++ own ∷ []) (length boxes) result }
{
    let last = streaks.len();
    let mut first = last;
    let mut hull = own;
    while first > 0 {
        let before = &streaks[first - 1];
        if first - before.first != last + 1 - first {
            break;
        }
        hull = hull.hull(&before.hull);
        first = before.first;
    }
    Streak { first, hull }
}
