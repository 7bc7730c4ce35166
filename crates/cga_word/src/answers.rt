use crate::answer::Answer;

/// A shape's answer for each target that the rules of its symbol mention, and `None` for the
/// others.
#[derive(Clone, Copy, PartialEq, Eq, Debug)]
pub struct Answers {
    pub noparent: Option<Answer>,
    pub active: Option<Answer>,
}
