//! The names that were noted last.
ghost use Rattle.std.specs.Prelude.{◌≡◌, None};
ghost use Rattle.cga_check.specs.Latest.{noted, value_of, value_or};

use cga_word::Name;

/// The latest four names that were noted, each with a value.
#[derive(Drop)]
pub struct Latest<V> {
    first: Option<(Name, V)>,
    second: Option<(Name, V)>,
    third: Option<(Name, V)>,
    fourth: Option<(Name, V)>,
}

impl<V: Copy> Latest<V> {
    /// Of no name.
    pub fn new() -> Latest<V>
        ensures { result ≡ record { first = None; second = None; third = None; fourth = None } }
    {
        Latest {
            first: None,
            second: None,
            third: None,
            fourth: None,
        }
    }

    /// The value of a name, if it is one of them.
    pub fn get(&self, name: Name) -> Option<V>
        ensures { result ≡ value_of self.now name }
    {
        if let Some(value) = value_in(&self.first, name) {
            return Some(value);
        }
        if let Some(value) = value_in(&self.second, name) {
            return Some(value);
        }
        if let Some(value) = value_in(&self.third, name) {
            return Some(value);
        }
        value_in(&self.fourth, name)
    }

    /// One name more. The oldest goes.
    pub fn note(&mut self, name: Name, value: V)
        ensures { self.new ≡ noted self.old name value }
    {
        self.fourth = self.third;
        self.third = self.second;
        self.second = self.first;
        self.first = Some((name, value));
    }
}

fn value_in<V: Copy>(kept: &Option<(Name, V)>, name: Name) -> Option<V>
    ensures { result ≡ value_or kept.now name None }
{
    match kept {
        Some((known, value)) if *known == name => Some(*value),
        _ => None,
    }
}
