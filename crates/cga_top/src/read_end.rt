use crate::halt::Halt;

/// How reading a script ended.
#[derive(Clone, Copy, Debug, PartialEq, Eq)]
pub enum ReadEnd {
    /// The source has no more.
    Ended,
    /// A read failed.
    Failed,
    /// The script has more than 67,108,864 bytes.
    TooLong,
    Halted(Halt),
}
