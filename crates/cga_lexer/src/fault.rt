/// Why a line has no tokens, with the place of the byte, counted from 1.
#[derive(Clone, Copy, Debug, PartialEq, Eq)]
pub enum LexFault {
    /// No token begins with this byte, or a name in quotes can't go on with it.
    BadByte(u32),
    /// A number of more than 18 digits, or with a letter right behind it.
    BadNumber(u32),
    /// A name of more than 32 bytes.
    LongName(u32),
    /// The quote that no other quote closes.
    OpenText(u32),
}
