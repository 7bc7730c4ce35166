ghost use Rattle.std.specs.Prelude.{◌≡◌};

use crate::asset::Asset;
use crate::wardrobe_fault::WardrobeFault;
use cga_word::Name;
use std::alloc::Global;
use std::collections::BTreeMap;
use std::marker::Model;

/// The most assets that are kept.
const MOST_ASSETS: usize = 64;

/// The most symbols that are dressed.
const MOST_DRESSES: usize = 512;

/// Assets by their names, and the symbols that they dress. An asset that is given again dresses the same symbols.
#[derive(Drop)]
pub struct Wardrobe {
    assets: BTreeMap<Name, Asset>,
    dresses: BTreeMap<Name, Name>,
}

impl Model for Wardrobe {
    ghost use Rattle.cga_asset.specs.Wardrobe.{WardrobeView};

    ghost Value = { WardrobeView };

    ghost view = { λ w. record { assets = w.assets.entries; dresses = w.dresses.entries } };
}

impl Wardrobe {
    ghost use Rattle.std.specs.Prelude.{◌≡◌, IsFalse};
    ghost use Rattle.std.specs.Option.{option_copied};
    ghost use Rattle.cga_asset.specs.Wardrobe.{Gives, dressed, empty, has, undressed, with_asset, worn};

    /// Of nothing. Takes no memory.
    pub fn new(alloc: Global) -> Wardrobe
        ensures { result ≡ empty }
    {
        Wardrobe {
            assets: BTreeMap::new(alloc),
            dresses: BTreeMap::new(alloc),
        }
    }

    /// Keeps an asset, in place of the one of its name. Takes memory.
    pub fn set(&mut self, name: Name, asset: Asset) -> Result<(), WardrobeFault>
        ensures { Gives (with_asset self.old name asset) self.old result self.new }
    {
        if self.assets.len() >= MOST_ASSETS && !self.assets.contains_key(&name) {
            return Err(WardrobeFault::TooManyAssets);
        }
        match self.assets.insert(name, asset) {
            Ok(_) => Ok(()),
            Err(_) => Err(WardrobeFault::NoMemory),
        }
    }

    /// Has a symbol drawn as an asset. Takes memory.
    pub fn dress(&mut self, symbol: Name, name: Name) -> Result<(), WardrobeFault>
        ensures { Gives (dressed self.old symbol name) self.old result self.new }
    {
        if !self.assets.contains_key(&name) {
            return Err(WardrobeFault::NoAsset(name));
        }
        if self.dresses.len() >= MOST_DRESSES && !self.dresses.contains_key(&symbol) {
            return Err(WardrobeFault::TooManyDresses);
        }
        match self.dresses.insert(symbol, name) {
            Ok(_) => Ok(()),
            Err(_) => Err(WardrobeFault::NoMemory),
        }
    }

    /// Has a symbol drawn as its solids again. False, and unchanged, where it isn't dressed. Takes no memory.
    pub fn undress(&mut self, symbol: Name) -> bool
        ensures found { result ≡ has symbol self.old.dresses }
        ensures value { self.new ≡ undressed self.old symbol }
        ensures unchanged { IsFalse result → self.new ≡ self.old }
    {
        self.dresses.remove(&symbol).is_some()
    }

    /// The asset that a symbol is drawn as.
    pub fn worn(&self, symbol: &Name) -> Option<&Asset>
        ensures { option_copied result ≡ worn self.now symbol.now }
    {
        match self.dresses.get(symbol) {
            Some(name) => self.assets.get(name),
            None => None,
        }
    }
}
