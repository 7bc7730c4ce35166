/// What ended the line that is kept.
#[derive(Clone, Copy, PartialEq, Eq)]
pub enum Ending {
    /// Nothing yet: the line may go on.
    Open,
    /// An LF, which takes one CR before it away.
    Lf,
    /// The end of the script, before which a CR stays.
    End,
}
