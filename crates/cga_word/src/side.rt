/// A face of a scope. The first four are the side faces, `Front` at the high end of Z.
#[derive(Clone, Copy, PartialEq, Eq, Debug)]
pub enum Side {
    Front,
    Right,
    Back,
    Left,
    Top,
    Bottom,
}
