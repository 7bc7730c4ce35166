/// The shapes that an occlusion query compares with: all but the asking shape and its ancestors, or
/// only the active ones of them, which wait for their expansion.
#[derive(Clone, Copy, PartialEq, Eq, Debug)]
pub enum Target {
    Noparent,
    Active,
}
