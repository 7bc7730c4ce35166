ghost use Rattle.std.specs.Prelude.{◌≡◌, ◌++◌, IfOk, OnOk};
ghost use Rattle.cga_top.specs.Stats.{counted, stats_text_of};

use cga_fraction::{List, NoMemory, Text};
use cga_shape::Counts;
use std::alloc::Global;

// Adds a word, and a number behind it.
fn push_counted(text: &mut Text, word: &[u8], number: u64) -> Result<(), NoMemory>
    ensures { OnOk result (text.new ≡ text.old ++ counted word.now number) }
{
    text.push(word)?;
    text.push_whole(number.into())
}

/// The line that `stats` is replied to. Takes memory.
pub(crate) fn stats_text(alloc: Global, counts: Counts) -> Result<List<u8>, NoMemory>
    ensures { IfOk result (λ text. text ≡ stats_text_of counts) }
{
    let mut text = Text::new(alloc);
    push_counted(&mut text, b"# stats lots ", counts.lots.into())?;
    push_counted(&mut text, b" shapes ", counts.shapes.into())?;
    push_counted(&mut text, b" instances ", counts.instances.into())?;
    push_counted(&mut text, b" faults ", counts.faults.into())?;
    push_counted(&mut text, b" expanded ", counts.expanded)?;
    text.push(b"\n")?;
    Ok(text.into_list())
}
