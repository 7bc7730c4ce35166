/// The derivation comes to more shapes than the budget.
#[derive(Clone, Copy, Debug, PartialEq, Eq)]
pub struct OverBudget;
