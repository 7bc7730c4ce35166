ghost use Rattle.std.specs.Prelude.{◌≡◌, ◌++◌, IfOk, OnOk, flat_map};
ghost use Rattle.cga_obj.specs.Faults as spec;
ghost use Rattle.cga_obj.specs.Faults.{fault_line, fault_text_of, index_text, path_text};

use cga_fraction::{List, NoMemory, Text};
use cga_shape::{FaultLine, ShapeFault};
use std::alloc::Global;

#[tactic(auto, unfolding(crate::specs::Faults::index_text))]
fn push_index(text: &mut Text, index: u16) -> Result<(), NoMemory>
    ensures { OnOk result (text.new ≡ text.old ++ index_text index) }
{
    text.push_byte(b'/')?;
    text.push_whole(u128::from(index))
}

fn push_indices(text: &mut Text, path: &[u16]) -> Result<(), NoMemory>
    ensures { OnOk result (text.new ≡ text.old ++ flat_map index_text path.now) }
{
    for index in path {
        push_index(text, *index)?;
    }
    Ok(())
}

/// Adds a path: a stroke for a root, and otherwise one before each index.
#[tactic(auto, unfolding(crate::specs::Faults::path_text))]
pub fn push_path(text: &mut Text, path: &[u16]) -> Result<(), NoMemory>
    ensures { OnOk result (text.new ≡ text.old ++ path_text path.now) }
{
    match path {
        [] => text.push_byte(b'/'),
        _ => push_indices(text, path),
    }
}

/// The name of a fault, as it is printed.
#[tactic(auto, unfolding(crate::specs::Faults::fault_code))]
pub fn fault_code(fault: ShapeFault) -> &'static [u8]
    ensures { result.now ≡ spec.fault_code fault }
{
    match fault {
        ShapeFault::TooDeep => b"TooDeep",
        ShapeFault::Unmatched => b"Unmatched",
        ShapeFault::Overflow => b"Overflow",
        ShapeFault::ZeroDivide => b"ZeroDivide",
        ShapeFault::NegativeSize => b"NegativeSize",
        ShapeFault::FlatScope => b"FlatScope",
        ShapeFault::PartNotPositive => b"PartNotPositive",
        ShapeFault::SubdivSum => b"SubdivSum",
        ShapeFault::RepeatCount => b"RepeatCount",
        ShapeFault::TooManyParts => b"TooManyParts",
        ShapeFault::TooManyChildren => b"TooManyChildren",
    }
}

#[tactic(auto, unfolding(crate::specs::Faults::fault_line))]
fn push_fault(text: &mut Text, line: &FaultLine) -> Result<(), NoMemory>
    ensures { OnOk result (text.new ≡ text.old ++ fault_line line.now) }
{
    text.push(b"# fault ")?;
    text.push(line.lot.bytes())?;
    text.push_byte(b' ')?;
    push_path(text, line.path.as_slice())?;
    text.push_byte(b' ')?;
    text.push(line.symbol.bytes())?;
    text.push_byte(b' ')?;
    text.push(fault_code(line.fault))?;
    text.push_byte(b'\n')
}

fn push_faults(text: &mut Text, faults: &[FaultLine]) -> Result<(), NoMemory>
    ensures { OnOk result (text.new ≡ text.old ++ flat_map fault_line faults.now) }
{
    for line in faults {
        push_fault(text, line)?;
    }
    Ok(())
}

/// The number of faults, and a line for each: its lot, its path, its symbol and its code. Takes memory.
#[tactic(auto, unfolding(crate::specs::Faults::fault_text_of))]
pub fn fault_text(alloc: Global, faults: &[FaultLine]) -> Result<List<u8>, NoMemory>
    ensures { IfOk result (λ text. text ≡ fault_text_of faults.now) }
{
    let mut text = Text::new(alloc);
    text.push(b"# faults ")?;
    text.push_whole(faults.len() as u128)?;
    text.push_byte(b'\n')?;
    push_faults(&mut text, faults)?;
    Ok(text.into_list())
}
