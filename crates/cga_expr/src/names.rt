ghost use Rattle.std.specs.Prelude.{◌≡◌, position, slice_get};
ghost use Rattle.cga_expr.specs.Names.{attribute_of, number_of, same_name, seen, value_at};

use cga_fraction::Fraction;
use cga_frame::Point;
use cga_rule::Attribute;
use cga_word::Name;

/// What an expression reads beside itself: the parameters of the rule's symbol with the shape's
/// arguments, the attributes of the grammar, the sizes of a scope, and the shape's seed.
#[derive(Clone, Copy, Debug)]
pub struct Names<'a> {
    pub params: &'a [Name],
    pub args: &'a [Fraction],
    pub attributes: &'a [Attribute],
    pub size: Point,
    pub seed: u64,
}

impl Names<'_> {
    #[tactic(auto, unfolding(crate::specs::Names::number_of))]
    pub(crate) fn number(&self, name: Name) -> Fraction
        ensures { result ≡ number_of (seen self.now) name }
    {
        self.value(name).unwrap_or(Fraction::zero())
    }

    // A parameter hides an attribute of its name, also where it has no argument.
    fn value(&self, name: Name) -> Option<Fraction>
        ensures { result ≡ value_at (seen self.now) name (position (λ param. same_name param name) self.now.params.now) }
    {
        match place(self.params, name) {
            Some(place) => argument_at(self.args, place),
            None => attribute(self.attributes, name),
        }
    }
}

fn place(params: &[Name], name: Name) -> Option<usize>
    ensures { result ≡ position (λ param. same_name param name) params.now }
{
    params.iter().position(|param| *param == name)
}

#[tactic(auto, using(std::proofs::lemmas::Option::gets))]
fn argument_at(args: &[Fraction], place: usize) -> Option<Fraction>
    ensures { result ≡ slice_get args.now place }
{
    args.get(place).copied()
}

fn attribute(attributes: &[Attribute], name: Name) -> Option<Fraction>
    ensures { result ≡ attribute_of attributes.now name }
{
    attributes
        .iter()
        .find(|attribute| attribute.name == name)
        .map(|attribute| attribute.value)
}
