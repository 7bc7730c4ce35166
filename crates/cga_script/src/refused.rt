use cga_asset::{AssetFault, WardrobeFault};
use cga_form::{BlockFault, LineFault};
use cga_shape::EditRefused;
use cga_word::Name;

/// Why a line, a block or a command is refused.
#[derive(Drop)]
pub enum Refused {
    Line(LineFault),
    /// The first faulty line of a block of rules, or of a city.
    Block(BlockFault),
    /// The script ended in a block.
    OpenBlock,
    Edit(EditRefused),
    /// The rule of this id is too long for a line.
    LongDump(u32),
    Asset(AssetFault),
    Wardrobe(WardrobeFault),
    /// The symbol has no dress.
    NoDress(Name),
    ModelTooLarge,
    NoUndo,
    NoRedo,
}
