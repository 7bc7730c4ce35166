/// How a run ended.
#[derive(Clone, Copy, Debug, PartialEq, Eq)]
pub enum Status {
    /// All of the script was replied to.
    Done,
    /// The words of the command line aren't the program's.
    Usage,
    /// A read failed.
    ReadFault,
    /// A write or a flush failed.
    WriteFault,
    /// The script has more than 67,108,864 bytes.
    TooLong,
    NoMemory,
}
