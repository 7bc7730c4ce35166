ghost use Rattle.std.specs.Prelude.{◌≡◌, ◌++◌, ◌∷◌, [], List, Option, IfOk, OnOk};
ghost use Rattle.cga_parser.specs.declared.block_line.BlockLine.{BlockLine};
ghost use Rattle.cga_parser.specs.BlockTells.{BlockTells, Adds, Holds, kept_of};
ghost use Rattle.cga_parser.specs.Blocks as spec;

use crate::block::block;
use crate::block_line::BlockLine;
use crate::keep::keep;
use crate::limits::{KEPT_ATTRIBUTES, KEPT_RULES};
use cga_form::fault::Fault;
use cga_form::tokens::Tokens;
use cga_form::{BlockFault, BlockReader, Form, Gather, LineFault};
use cga_fraction::{List, NoMemory, Shared, Stop};
use cga_syntax::{Attribute, Entry, Grammar};
use std::alloc::Global;

/// The priority of a rule before the first line with a priority.
const FIRST_PRIORITY: u16 = 1;

/// The attributes and rules of the lines of a block so far, as many as are kept, and the last priority.
#[derive(Drop)]
pub struct Gathered {
    priority: u16,
    attributes: List<Attribute>,
    rules: List<Entry>,
}

impl Gathered {
    #[tactic(auto, unfolding(crate::specs::BlockTells::attributes_of, crate::specs::BlockTells::entries_from, crate::specs::BlockTells::priority_after))]
    fn take(&mut self, said: Option<BlockLine>) -> Result<(), NoMemory>
        ensures { OnOk result (Adds self.old said self.new) }
    {
        match said {
            Some(BlockLine::Attribute(attribute)) => {
                keep(&mut self.attributes, KEPT_ATTRIBUTES, attribute)?
            }
            Some(BlockLine::Priority(priority)) => self.priority = priority,
            Some(BlockLine::Rule(rule)) => {
                let priority = self.priority;
                keep(&mut self.rules, KEPT_RULES, Entry { priority, rule })?;
            }
            Some(BlockLine::End) | None => {}
        }
        Ok(())
    }
}

impl Form for Gathered {
    type Member = BlockLine;

    ghost pieces = { spec.block_pieces };

    ghost reader = { spec.block };

    fn read(alloc: Global, tokens: &mut Tokens<'_>, depth: u8) -> Result<BlockLine, Stop<Fault>> {
        block(alloc, tokens, depth)
    }

    #[tactic(auto, using(crate::proofs::AreForms::block_form))]
    fn is_form() {}
}

impl Gather for Gathered {
    type All = Grammar;

    ghost holds = { Holds };

    ghost says = { kept_of };

    #[tactic(auto, unfolding(crate::specs::BlockTells::attributes_of, crate::specs::BlockTells::entries_from, crate::specs::BlockTells::priority_after))]
    fn empty(alloc: Global) -> Gathered
        ensures { Holds result [] }
    {
        Gathered {
            priority: FIRST_PRIORITY,
            attributes: List::new(alloc),
            rules: List::new(alloc),
        }
    }

    #[tactic(auto, using(crate::proofs::Additions::holds_more))]
    fn add(&mut self, said: Option<BlockLine>) -> Result<(), NoMemory>
        ensures { (all : List (Option BlockLine)) → Holds self.old all → OnOk result (Holds self.new (all ++ said ∷ [])) }
    {
        self.take(said)
    }

    fn finish(self, alloc: Global) -> Result<Grammar, NoMemory>
        ensures { (all : List (Option BlockLine)) → Holds self all → IfOk result (λ grammar. grammar ≡ kept_of all) }
    {
        let rules = Shared::from_vec(alloc, self.rules.into_vec())?;
        Ok(Grammar {
            attributes: self.attributes,
            rules,
        })
    }
}

/// Reads the lines of a block of rules one after the other: `new` takes none yet, `line` the next
/// one, and `finish` says which grammar they are, cut behind the first rule and the first attribute
/// that are too many, or which is the first faulty line.
pub type GrammarReader = BlockReader<Gathered>;

/// The first faulty line of a block of rules.
pub type GrammarFault = BlockFault;

/// What a line of a block says, or its first fault; None where it is blank. A line that is said to
/// be long, or has more than 4,096 bytes, isn't looked at.
pub fn read_block_line(
    alloc: Global,
    line: &[u8],
    long: bool,
) -> Result<Result<Option<BlockLine>, LineFault>, NoMemory>
    ensures { IfOk result (λ found. BlockTells (record { bytes = line.now; long = long }) found) }
{
    cga_form::read_block_line::<Gathered>(alloc, line, long)
}
