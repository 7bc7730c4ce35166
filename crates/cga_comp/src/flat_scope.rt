/// The scope doesn't have the component.
#[derive(Clone, Copy, Debug, PartialEq, Eq)]
pub struct FlatScope;
