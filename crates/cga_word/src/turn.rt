/// A turn about an axis of a scope, in degrees. A turn by -90 is `By270`.
#[derive(Clone, Copy, PartialEq, Eq, Debug)]
pub enum Turn {
    By0,
    By90,
    By180,
    By270,
}
