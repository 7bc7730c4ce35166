ghost use Rattle.std.specs.Prelude.{◌≡◌, ◌∷◌, [], OnOk};
ghost use Rattle.cga_parser.specs.Kept.{with_room};

use cga_fraction::{List, NoMemory};

/// One more item, where so many aren't there yet. Takes memory.
pub(crate) fn keep<T: Drop>(items: &mut List<T>, most: usize, item: T) -> Result<(), NoMemory>
    ensures { OnOk result (items.new ≡ with_room most items.old (item ∷ [])) }
{
    if items.len() < most {
        items.push(item)?;
    }
    Ok(())
}
