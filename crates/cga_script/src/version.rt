/// The version of a script, which its first line that isn't blank decides.
#[derive(Clone, Copy, PartialEq, Eq)]
pub enum Version {
    One,
    Two,
}
