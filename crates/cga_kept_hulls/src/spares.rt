ghost use Rattle.std.specs.Prelude.{◌≡◌, ◌≤◌, ◌<◌, ◌+◌, length, OnOk};

use crate::hulls::Hulls;
use crate::hulls_box::HullsBox;
use cga_fraction::NoMemory;
use cga_frame::{Point, WorldBox};
use std::alloc::Global;

/// Boxes that were taken ahead, so that hulls can be written where no memory may be wanting.
#[derive(Drop)]
pub struct Spares {
    boxes: Vec<HullsBox>,
}

impl Spares {
    pub fn new(alloc: Global) -> Spares {
        Spares {
            boxes: Vec::new(alloc),
        }
    }

    /// Sees to it that so many are there. Nobody reads what is in them. Takes memory.
    pub fn provide(&mut self, alloc: Global, count: usize) -> Result<(), NoMemory>
        ensures { OnOk result (count ≤ length self.new.boxes.items) }
    {
        while self.boxes.len() < count {
            self.boxes.push(HullsBox::new(alloc, of_a_point())?)?;
        }
        Ok(())
    }

    pub fn take(&mut self) -> HullsBox
        requires some { 0 < length self.old.boxes.items }
        ensures fewer { length self.new.boxes.items + 1 ≡ length self.old.boxes.items }
    {
        self.boxes.pop().unwrap()
    }
}

/// The hulls of one point.
fn of_a_point() -> Hulls {
    let bounds = WorldBox {
        low: Point::whole(0, 0, 0),
        high: Point::whole(0, 0, 0),
    };
    Hulls::alone(bounds, false)
}
