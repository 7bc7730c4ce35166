use cga_parser::BlockLine;
use cga_shape::Lot;
use cga_word::Mode;

/// What a line of a block of a whole city says.
#[derive(Drop)]
pub enum CityLine {
    /// What it would say in a block of rules.
    Block(BlockLine),
    Order(Mode),
    Lot(Lot),
}
