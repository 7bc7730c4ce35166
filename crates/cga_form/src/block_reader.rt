ghost use Rattle.std.specs.Prelude.{◌≡◌, ◌++◌, ◌∷◌, [], List, IfOk, OnOk, IsOk, Err};
ghost use Rattle.cga_form.specs.declared.block_fault.BlockFault.{BlockFault};
ghost use Rattle.cga_form.specs.Lines.{Line};
ghost use Rattle.cga_form.specs.BlockTells.{AllTells, StandsFor, IsFaulty, line_number};

use crate::block_fault::BlockFault;
use crate::block_line::read_block_line;
use crate::gather::Gather;
use cga_fraction::NoMemory;
use std::alloc::Global;

/// Reads the lines of a block one after the other. Of a faulty block it keeps the first faulty line.
#[derive(Drop)]
pub struct BlockReader<G> {
    alloc: Global,
    lines: u32,
    gathered: G,
    fault: Option<BlockFault>,
}

impl<G: Gather + Drop> BlockReader<G> {
    /// A reader of no lines yet. Takes no memory.
    #[tactic(auto, unfolding(crate::specs::BlockTells::Say))]
    pub fn new(alloc: Global) -> BlockReader<G>
        ensures { StandsFor G.pieces G.holds result [] }
    {
        BlockReader {
            alloc,
            lines: 0,
            gathered: G::empty(alloc),
            fault: None,
        }
    }

    /// Takes the next line of the block, without its end. The bytes of a long one aren't looked at.
    /// After a faulty line the others are only counted, which takes no memory. After NoMemory the
    /// reader stands for nothing.
    pub fn line(&mut self, bytes: &[u8], long: bool) -> Result<(), NoMemory>
        ensures taken { (lines : List Line) → StandsFor G.pieces G.holds self.old lines
            → OnOk result (StandsFor G.pieces G.holds self.new (lines ++ record { bytes = bytes.now; long = long } ∷ [])) }
        ensures free { (lines : List Line) (f : BlockFault) → StandsFor G.pieces G.holds self.old lines
            → IsFaulty G.pieces lines f → IsOk result }
    {
        G::is_form();
        self.lines = self.lines.saturating_add(1);
        if self.fault.is_some() {
            return Ok(());
        }
        match read_block_line::<G>(self.alloc, bytes, long)? {
            Ok(said) => self.gathered.add(said),
            Err(fault) => {
                let line = self.lines;
                self.fault = Some(BlockFault { line, fault });
                Ok(())
            }
        }
    }

    /// What the lines say, or the first faulty one. May take memory, where no line is faulty.
    pub fn finish(self) -> Result<Result<G::All, BlockFault>, NoMemory>
        ensures { (lines : List Line) → StandsFor G.pieces G.holds self lines → IfOk result (AllTells G.pieces G.says lines) }
    {
        let BlockReader {
            alloc,
            gathered,
            fault,
            ..
        } = self;
        match fault {
            None => Ok(Ok(gathered.finish(alloc)?)),
            Some(fault) => Ok(Err(fault)),
        }
    }
}
