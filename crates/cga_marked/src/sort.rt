ghost use Rattle.std.specs.Prelude.{◌≡◌};
ghost use Rattle.cga_marked.specs.Sorts.{is_first, is_second};

/// In which of two numbers an entry counts, if in any.
#[derive(Clone, Copy, Debug)]
pub enum Sort {
    Other,
    First,
    Second,
}

impl Sort {
    pub fn is_first(self) -> bool
        ensures { result ≡ is_first self }
    {
        matches!(self, Sort::First)
    }

    pub fn is_second(self) -> bool
        ensures { result ≡ is_second self }
    {
        matches!(self, Sort::Second)
    }
}
