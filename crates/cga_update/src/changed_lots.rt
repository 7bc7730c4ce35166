/// Which lots differ between the old and the new sources of an update. A lot that isn't named stands in both, and its
/// symbol has the same priority by both grammars.
#[derive(Clone, Copy)]
pub enum ChangedLots {
    Nothing,
    /// The place of the old one, if any, and that of the new one.
    One(Option<usize>, Option<usize>),
    All,
}
