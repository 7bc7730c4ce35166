/// A change of a map since the mark, as it is taken back.
#[derive(Clone, Copy, Debug)]
pub enum Step {
    /// A name came, which had this former id since the mark or before, and stands in the gap.
    Created {
        place: usize,
        former: Option<usize>,
        gap: usize,
    },
    /// A name went from this place.
    Removed {
        place: usize,
    },
}
