ghost use Rattle.std.specs.Prelude.{◌≡◌, IfOk};
ghost use Rattle.cga_top.specs.Output.{output_of};

use crate::decimals::Decimals;
use crate::top::run_given;
use cga_expand::Expansions;
use cga_fraction::{List, NoMemory, Tests};
use cga_outside::ListSink;
use cga_words::Status;
use std::alloc::Global;
use std::sync::ledger::Ledger;

/// The output of a script that is there as a whole, for a program that has this one inside. Nothing is read or written,
/// so want of memory is the only thing that can keep it back. The memory that is taken grows with the output, too.
pub fn reply<E: Ledger, T: Ledger>(
    alloc: Global,
    decimals: Decimals,
    script: &[u8],
    expansions: &mut Expansions<E>,
    tests: &mut Tests<T>,
) -> Result<List<u8>, NoMemory>
    ensures { IfOk result (λ text. text ≡ output_of decimals script.now) }
{
    let mut out = ListSink::new(alloc);
    match run_given(alloc, decimals, script, &mut out, expansions, tests) {
        Status::Done => Ok(out.into_list()),
        _ => Err(NoMemory),
    }
}
