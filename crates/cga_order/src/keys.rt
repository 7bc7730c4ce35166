ghost use Rattle.std.specs.Prelude.{◌≡◌, IfOk, ◌++◌, ◌∷◌, []};
ghost use Rattle.cga_order.specs.ChildKeys.{IsChildKey, IsRootKey};

use crate::head::child_head;
use crate::path::Path;
use crate::stamp_key::StampKey;
use cga_fraction::NoMemory;
use cga_word::{Mode, Name};
use std::alloc::Global;

/// The key of a lot's root, whose symbol has this priority. Takes memory.
pub fn root_key(alloc: Global, mode: Mode, lot: Name, priority: u16) -> Result<StampKey, NoMemory>
    ensures { IfOk result (λ key. IsRootKey mode lot priority key) }
{
    let priorities = Path::extended(alloc, &[], priority)?;
    Ok(StampKey {
        mode,
        lot,
        path: Path::new(alloc),
        priorities,
        head: 0,
    })
}

/// The key of a child of a shape, whose symbol has this priority. Takes memory for both paths, where they are long.
pub fn child_key(
    alloc: Global,
    parent: &StampKey,
    index: u16,
    priority: u16,
) -> Result<StampKey, NoMemory>
    ensures { IfOk result (λ key. IsChildKey parent.now index priority key) }
{
    let path = child_path(alloc, &parent.path, index)?;
    let priorities = child_path(alloc, &parent.priorities, priority)?;
    let head = child_head(parent.priorities.as_slice(), parent.head, priority);
    Ok(StampKey {
        mode: parent.mode,
        lot: parent.lot,
        path,
        priorities,
        head,
    })
}

/// A path with one more number behind it. Takes memory for all of it.
pub fn child_path(alloc: Global, parent: &Path, index: u16) -> Result<Path, NoMemory>
    ensures { IfOk result (λ path. path ≡ parent.now ++ index ∷ []) }
{
    Path::extended(alloc, parent.as_slice(), index)
}
