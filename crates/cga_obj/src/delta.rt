ghost use Rattle.std.specs.Prelude.{◌≡◌, ◌++◌, [], IfOk, IsFalse, IsTrue, OnOk, codes, flat_map};
ghost use Rattle.cga_obj.specs.Delta.{axes_text, delta_text_of, drawn_text, header, line_text, point_text, told_text};

use crate::delta_words::{direction_word, primitive_word};
use cga_fraction::{List, NoMemory, Text};
use cga_frame::{Frame, Point};
use cga_shape::{Changes, Drawn};
use cga_word::Axis;
use std::alloc::Global;

#[tactic(auto, unfolding(crate::specs::Delta::point_text))]
fn push_point(text: &mut Text, point: Point) -> Result<(), NoMemory>
    ensures { OnOk result (text.new ≡ text.old ++ point_text point) }
{
    text.push_byte(b' ')?;
    text.push_exact(point.x)?;
    text.push_byte(b' ')?;
    text.push_exact(point.y)?;
    text.push_byte(b' ')?;
    text.push_exact(point.z)
}

#[tactic(auto, unfolding(crate::specs::Delta::axes_text))]
fn push_axes(text: &mut Text, frame: Frame) -> Result<(), NoMemory>
    ensures { OnOk result (text.new ≡ text.old ++ axes_text frame) }
{
    text.push_byte(b' ')?;
    text.push(direction_word(frame.axis(Axis::X)))?;
    text.push(direction_word(frame.axis(Axis::Y)))?;
    text.push(direction_word(frame.axis(Axis::Z)))
}

#[tactic(auto, unfolding(crate::specs::Delta::drawn_text))]
fn push_drawn(text: &mut Text, drawn: &Drawn) -> Result<(), NoMemory>
    ensures { OnOk result (text.new ≡ text.old ++ drawn_text drawn.now) }
{
    text.push(drawn.lot.bytes())?;
    text.push_byte(b' ')?;
    text.push(drawn.symbol.bytes())?;
    text.push_byte(b' ')?;
    text.push(primitive_word(drawn.primitive))?;
    push_point(text, drawn.scope.at())?;
    push_axes(text, drawn.scope.frame())?;
    push_point(text, drawn.scope.size())
}

#[tactic(auto, unfolding(crate::specs::Delta::line_text))]
fn push_line(text: &mut Text, sign: &[u8], drawn: &Drawn) -> Result<(), NoMemory>
    ensures { OnOk result (text.new ≡ text.old ++ line_text sign.now drawn.now) }
{
    text.push(sign)?;
    push_drawn(text, drawn)?;
    text.push_byte(b'\n')
}

fn push_all(text: &mut Text, sign: &[u8], all: &[Drawn]) -> Result<(), NoMemory>
    ensures { OnOk result (text.new ≡ text.old ++ flat_map (line_text sign.now) all.now) }
{
    for drawn in all {
        push_line(text, sign, drawn)?;
    }
    Ok(())
}

#[tactic(auto, unfolding(crate::specs::Delta::header))]
fn push_header(text: &mut Text, gone: usize, come: usize) -> Result<(), NoMemory>
    ensures { OnOk result (text.new ≡ text.old ++ header gone come) }
{
    text.push(b"# changed ")?;
    text.push_whole(gone as u128)?;
    text.push_byte(b' ')?;
    text.push_whole(come as u128)?;
    text.push_byte(b'\n')
}

#[tactic(auto, unfolding(crate::specs::Delta::told_text))]
fn push_told(text: &mut Text, changes: &Changes) -> Result<(), NoMemory>
    ensures { OnOk result (text.new ≡ text.old ++ told_text changes.now) }
{
    push_header(text, changes.gone.len(), changes.come.len())?;
    push_all(text, b"- ", changes.gone.as_slice())?;
    push_all(text, b"+ ", changes.come.as_slice())
}

fn is_nothing(changes: &Changes) -> bool
    ensures nothing { IsTrue result → delta_text_of changes.now ≡ [] }
    ensures some { IsFalse result → delta_text_of changes.now ≡ told_text changes.now }
{
    changes.gone.is_empty() && changes.come.is_empty()
}

/// How many instances went and came, and a line for each: those that went first, behind `- `, and then those that came,
/// behind `+ `. A line has the lot, the symbol of the shape that emitted the instance, the primitive, the position, the
/// directions of the scope's axes and its sizes. No text where nothing changed. Takes memory.
pub fn delta_text(alloc: Global, changes: &Changes) -> Result<List<u8>, NoMemory>
    ensures { IfOk result (λ text. text ≡ delta_text_of changes.now) }
{
    if is_nothing(changes) {
        return Ok(List::new(alloc));
    }
    let mut text = Text::new(alloc);
    push_told(&mut text, changes)?;
    Ok(text.into_list())
}
