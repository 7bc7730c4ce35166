/// What the words of the command line ask for.
#[derive(Clone, Copy, Debug, PartialEq, Eq)]
pub struct Wanted {
    /// The decimals of each coordinate that is printed, at most 9.
    pub decimals: u8,
    /// The lots of the town, 1 to 200, where its script is to be done in place of the source's.
    pub town: Option<u32>,
}
