/// Why the words aren't read.
#[derive(Clone, Copy, Debug, PartialEq, Eq)]
pub enum WordsFault {
    /// They aren't words of the program.
    Usage,
    NoMemory,
}
