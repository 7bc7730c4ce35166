/// What a turn came to.
#[derive(Clone, Copy, Debug)]
pub struct Turned {
    /// How many children came by a call of expand; 0 where there was none.
    pub children: u16,
    /// Whether it called expand.
    pub expanded: bool,
}

impl Turned {
    ghost use Rattle.std.specs.Prelude.{◌≡◌};
    ghost use Rattle.cga_agenda.specs.Loop.{calls_of};

    /// The number of calls.
    pub fn calls(self) -> u32
        ensures { result ≡ calls_of self.expanded }
    {
        if self.expanded { 1 } else { 0 }
    }
}
