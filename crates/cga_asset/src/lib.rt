//! Meshes that a script gives, and what is drawn by them: read line by line, fitted into scopes, kept by name with the
//! symbols that they dress.
//!
//! It must not know how shapes come about or what a command is.
//!
//! What callers get wrong: a fit that is refused isn't a fault; the instance is then drawn as its solid.
#![tactic(auto)]

mod asset;
mod asset_line;
mod dressed;
mod fault;
mod fitting;
mod model_size;
mod numbers;
mod reader;
mod span;
mod too_large;
mod wardrobe;
mod wardrobe_fault;
mod words;

pub use asset::Asset;
pub use dressed::model_text;
pub use fault::AssetFault;
pub use fitting::fit;
pub use model_size::ModelSize;
pub use reader::AssetReader;
pub use too_large::ModelTooLarge;
pub use wardrobe::Wardrobe;
pub use wardrobe_fault::WardrobeFault;
