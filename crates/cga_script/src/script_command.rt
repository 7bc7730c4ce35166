use cga_shape::Edit;
use cga_word::Name;

/// What a line outside a block asks for. Those from `CityBlock` on, and the edit of the order, are
/// commands of version 2 alone.
#[derive(Drop)]
pub enum ScriptCommand {
    /// A line without tokens asks for nothing.
    Blank,
    /// The line that opens a block of rules.
    Rules,
    /// An edit, but for the two that a block makes.
    Change(Edit),
    /// The city, or one lot.
    Print(Option<Name>),
    Faults,
    Grammar,
    Stats,
    Quiet,
    /// The line that opens a block of a whole city.
    CityBlock,
    Dump,
    /// The line that opens a block of an asset of this name.
    AssetBlock(Name),
    /// A symbol, and the asset that it is drawn with.
    Dress(Name, Name),
    /// A symbol.
    Undress(Name),
    /// The city, or one lot, with assets.
    Model(Option<Name>),
    Bill,
    Undo,
    Redo,
    Trace,
    /// The line that opens a block of a trace.
    JudgeBlock,
}
