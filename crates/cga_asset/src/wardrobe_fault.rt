use cga_word::Name;

/// Why a wardrobe isn't changed.
#[derive(Clone, Copy, Debug)]
pub enum WardrobeFault {
    TooManyAssets,
    /// No asset has the name.
    NoAsset(Name),
    TooManyDresses,
    NoMemory,
}
