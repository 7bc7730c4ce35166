ghost use Rattle.std.specs.Prelude.{◌≡◌, IfOk};
ghost use Rattle.cga_asset.specs.Views.{texts};
ghost use Rattle.cga_asset.specs.Words.{words_of};

use cga_fraction::NoMemory;
use std::alloc::Global;

/// The words of a line, which blanks separate. Takes memory.
pub(crate) fn words<'a>(alloc: Global, line: &'a [u8]) -> Result<Vec<&'a [u8]>, NoMemory>
    ensures { IfOk result (λ words. texts words.items ≡ words_of line.now) }
{
    let words = line
        .split(|byte| *byte == b' ' || *byte == b'\t')
        .filter(|word| !word.is_empty())
        .collect(alloc)?;
    Ok(words)
}
