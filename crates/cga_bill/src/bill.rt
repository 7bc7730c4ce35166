ghost use Rattle.std.specs.Prelude.{◌≡◌};

use crate::lines::{BillLines, add_all, take_all};
use crate::text::push_bill;
use cga_fraction::{List, NoMemory, Text};
use cga_shape::Changes;
use std::alloc::Global;
use std::collections::BTreeMap;
use std::marker::Model;

/// What is drawn, summed up by symbol.
#[derive(Drop)]
pub struct Bill {
    lines: BillLines,
    alloc: Global,
}

impl Model for Bill {
    ghost use Rattle.std.specs.Prelude.{List, ℕ};
    ghost use Rattle.cga_bill.specs.declared.sums.Sums.{Sums};

    ghost Value = { List (List ℕ × Sums) };

    ghost view = { λ b. b.lines.entries };
}

impl Bill {
    ghost use Rattle.std.specs.Prelude.{◌≡◌, ◌+◌, ◌<◌, ◌^◌, [], List, IfOk, OnOk, OnErr, length};
    ghost use Rattle.cga_shape.specs.declared.drawn.Drawn.{Drawn};
    ghost use Rattle.cga_bill.specs.Bill.{Balances, bill_of};
    ghost use Rattle.cga_bill.specs.Texts.{bill_text_of};

    /// Of nothing. Takes no memory.
    #[tactic(auto, unfolding(crate::specs::Bill::bill_of))]
    pub fn new(alloc: Global) -> Bill
        ensures { result ≡ bill_of [] }
    {
        Bill {
            lines: BTreeMap::new(alloc),
            alloc,
        }
    }

    /// Takes memory, for a second bill.
    pub fn apply(&mut self, changes: &Changes) -> Result<(), NoMemory>
        requires { (old : List Drawn) × (new : List Drawn) × (self.old ≡ bill_of old) × Balances old new changes.now × (length old + length changes.now.come < 2 ^ 32) }
        ensures ok { (old new : List Drawn) → self.old ≡ bill_of old → Balances old new changes.now → OnOk result (self.new ≡ bill_of new) }
        ensures err { OnErr result (self.new ≡ self.old) }
    {
        let mut lines = self.lines.clone()?;
        add_all(&mut lines, changes.come.as_slice())?;
        take_all(&mut lines, changes.gone.as_slice());
        self.lines = lines;
        Ok(())
    }

    /// The number of symbols, and a line for each by its bytes. Takes memory.
    pub fn bill_text(&self) -> Result<List<u8>, NoMemory>
        ensures { IfOk result (λ text. text ≡ bill_text_of self.now) }
    {
        let mut text = Text::new(self.alloc);
        push_bill(&mut text, &self.lines)?;
        Ok(text.into_list())
    }
}
