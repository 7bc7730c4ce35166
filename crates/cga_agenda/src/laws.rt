//! What is proved of the work of an edit. Each function here does nothing: its contract is the law,
//! which a caller's proof can cite.

ghost use Rattle.cga_agenda.specs.OneLot.{ALotComes};
ghost use Rattle.cga_agenda.specs.Laws.{WorkBegins, TurnsKeepWorking, WorkIsExact};
ghost use Rattle.cga_agenda.specs.Laws.{RecordBegins, TurnsKeepRecord, RecordIsExact};
ghost use Rattle.cga_agenda.specs.Laws.{KnownGrows, OverBudgetIsExact, BelowIsLate};

/// The removed and created roots, and the first agenda, begin the work.
pub fn work_begins<N, A, B, F, P>()
    ensures { WorkBegins N A B F P }
{}

/// A turn keeps what holds between turns.
pub fn turns_keep_working<N, A, B, F, P>()
    ensures { TurnsKeepWorking N A B F P }
{}

/// At an empty agenda the shapes that were expanded are those touched, each once.
pub fn work_is_exact<N, A, B, F, P>()
    ensures { WorkIsExact N A B F P }
{}

/// The record begins with the nodes that are removed with the old roots.
pub fn record_begins<N, A, B, F, P>()
    ensures { RecordBegins N A B F P }
{}

/// A turn adds the removed and created nodes to the record.
pub fn turns_keep_record<N, A, B, F, P>()
    ensures { TurnsKeepRecord N A B F P }
{}

/// At an empty agenda the record names what it must.
pub fn record_is_exact<N, A, B, F, P>()
    ensures { RecordIsExact N A B F P }
{}

/// What is known begins with the roots, and grows by the children of what is expanded.
pub fn known_grows<N, A, B, F, P>()
    ensures { KnownGrows N A B F P }
{}

/// Where more is known, or had its turn, than the budget allows, the new derivation is over it; at
/// an empty agenda it is so if and only if there are more nodes.
pub fn over_budget_is_exact<N, A, B, F, P>()
    ensures { OverBudgetIsExact N A B F P }
{}

/// What the loop wants of a worker can be met: a lot comes where there was none, and its root is
/// expanded.
pub fn a_lot_comes()
    ensures { ALotComes }
{}

/// What stands below a shape was made at its stamp or later.
pub fn below_is_late<N, A, B, F, P>()
    ensures { BelowIsLate N A B F P }
{}
