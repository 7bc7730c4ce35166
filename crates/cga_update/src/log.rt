//! What came and went since the mark.
ghost use Rattle.std.specs.Prelude.{◌≡◌, ◌++◌, [], OnOk};
ghost use Rattle.cga_depend.specs.declared.log.Pairing.TheVariants.{Created, Removed};
ghost use Rattle.cga_update.specs.Log.{created_of, drawn_as, drawn_before, drawn_of, paired_before, removed_of};

use cga_depend::Pairing;
use cga_forest::NodeChange;
use cga_fraction::NoMemory;
use cga_shape::Drawn;
use cga_word::Primitive;

/// Notes nodes that went: the instances among what is gone, the others in the log. Takes memory.
pub fn note_removed(
    moved: &[NodeChange],
    log: &mut Vec<Pairing>,
    gone: &mut Vec<Drawn>,
) -> Result<(), NoMemory>
    ensures log { OnOk result (log.new.items ≡ log.old.items ++ removed_of moved.now) }
    ensures gone { OnOk result (gone.new.items ≡ gone.old.items ++ drawn_of moved.now) }
{
    for node in moved {
        note_gone(node, log, gone)?;
    }
    Ok(())
}

fn note_gone(
    node: &NodeChange,
    log: &mut Vec<Pairing>,
    gone: &mut Vec<Drawn>,
) -> Result<(), NoMemory>
    ensures log { OnOk result (log.new.items ≡ log.old.items ++ paired_before (Removed node.now.symbol node.now.id) node.now.primitive []) }
    ensures gone { OnOk result (gone.new.items ≡ gone.old.items ++ drawn_before node.now node.now.primitive []) }
{
    match node.primitive {
        Some(primitive) => {
            gone.push(drawn(node, primitive))?;
            Ok(())
        }
        None => {
            log.push(Pairing::Removed(node.symbol, node.id))?;
            Ok(())
        }
    }
}

/// Notes nodes that came: the instances among what has come, the others in the log. Takes memory.
pub fn note_created(
    moved: &[NodeChange],
    log: &mut Vec<Pairing>,
    come: &mut Vec<Drawn>,
) -> Result<(), NoMemory>
    ensures log { OnOk result (log.new.items ≡ log.old.items ++ created_of moved.now) }
    ensures come { OnOk result (come.new.items ≡ come.old.items ++ drawn_of moved.now) }
{
    for node in moved {
        note_come(node, log, come)?;
    }
    Ok(())
}

fn note_come(
    node: &NodeChange,
    log: &mut Vec<Pairing>,
    come: &mut Vec<Drawn>,
) -> Result<(), NoMemory>
    ensures log { OnOk result (log.new.items ≡ log.old.items ++ paired_before (Created node.now.symbol node.now.id) node.now.primitive []) }
    ensures come { OnOk result (come.new.items ≡ come.old.items ++ drawn_before node.now node.now.primitive []) }
{
    match node.primitive {
        Some(primitive) => {
            come.push(drawn(node, primitive))?;
            Ok(())
        }
        None => {
            log.push(Pairing::Created(node.symbol, node.id))?;
            Ok(())
        }
    }
}

fn drawn(node: &NodeChange, primitive: Primitive) -> Drawn
    ensures { result ≡ drawn_as node.now primitive }
{
    Drawn {
        lot: node.lot,
        symbol: node.symbol,
        primitive,
        scope: node.scope,
    }
}
