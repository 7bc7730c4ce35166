use std::marker::Model;

/// So many decimals, at most 9.
#[derive(Clone, Copy)]
pub struct Decimals {
    places: u8,
}

impl Model for Decimals {
    ghost use Rattle.std.specs.Prelude.{ℕ, ◌≤◌};
    ghost use Rattle.std.specs.Coded.{coded_ℕ};

    ghost Value = { ℕ };

    ghost coded = { coded_ℕ };

    ghost view = { λ d. d.places };

    ghost invariant = { λ d. d.places ≤ 9 };

    ghost inverse = { λ n. record { places = n } };
}

impl Decimals {
    ghost use Rattle.std.specs.Prelude.{◌≡◌, ◌≤◌};

    pub fn new(places: u8) -> Decimals
        requires { places ≤ 9 }
        ensures { result ≡ places }
    {
        Decimals { places }
    }

    pub(crate) fn get(self) -> u8
        ensures value { result ≡ self }
        ensures few { result ≤ 9 }
    {
        self.places
    }
}
