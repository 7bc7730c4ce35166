/// How the shapes of a target occlude a shape: one meets it and holds it (`Full`), one meets it
/// (`Part`), or none does.
#[derive(Clone, Copy, PartialEq, Eq, Debug)]
pub enum Answer {
    Nothing,
    Part,
    Full,
}
