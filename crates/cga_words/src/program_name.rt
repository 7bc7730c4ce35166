/// The names of the programs.
#[derive(Clone, Copy, Debug, PartialEq, Eq)]
pub enum ProgramName {
    City,
    Hulls,
    Live,
}
