/// Why a line isn't of its form. Places count from 1; the end of a line is after its last byte.
#[derive(Clone, Copy, PartialEq, Eq)]
pub enum LineFault {
    /// The line has more than 4,096 bytes.
    LineTooLong,
    BadByte(u32),
    BadNumber(u32),
    LongName(u32),
    OpenText(u32),
    /// The first token, or the end, with which the tokens so far begin no line of the form.
    Unexpected(u32),
    /// The first bracket with which 33 are open.
    TooNested(u32),
}
