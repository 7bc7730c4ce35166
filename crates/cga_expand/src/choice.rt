use cga_rule::Rule;
use cga_shape::ShapeFault;

/// What the rules that were looked at so far come to: the rule that is chosen of them, or the fault
/// of a condition before it, and the id of the rule that gave it.
#[derive(Clone, Copy)]
pub struct Choice<'a> {
    pub(crate) id: Option<u32>,
    pub(crate) rule: Result<&'a Rule, ShapeFault>,
}
