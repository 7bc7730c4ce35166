/// How the work of an edit ended.
#[derive(Clone, Copy, Debug, PartialEq, Eq)]
pub enum Ended {
    /// The new derivation has at most as many members as the budget allows, and the work is done, by so
    /// many calls of expand.
    Within(u32),
    /// It has more. The state is somewhere between the old derivation and the new one.
    OverBudget,
}
