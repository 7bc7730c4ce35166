ghost use Rattle.std.specs.Prelude.{◌≡◌, IfOk, OnOk};
ghost use Rattle.cga_city.specs.City.{HasDistinctLots};
ghost use Rattle.cga_undo.specs.History.{undone, redone};
ghost use Rattle.cga_script.specs.declared.version.Version.TheVariants.{One, Two};
ghost use Rattle.cga_top.specs.State.{State};
ghost use Rattle.cga_top.specs.Written.{IsWritten};
ghost use Rattle.cga_top.specs.Replies.{edited, stepped};
ghost use Rattle.cga_top.specs.Session.{IsAt, Did};
ghost use Rattle.cga_top.specs.Ready.{IsReady, Tells, Works};

use crate::session::{Session, accepted};
use cga_expand::Expansions;
use cga_fraction::{List, NoMemory, Tests};
use cga_script::{Refused, Version, refusal_text};
use cga_shape::{Edit, EditRefused, Sources};
use std::sync::ledger::Ledger;

// Does an edit of the city, and brings the bill up to it. After want of memory the bill may be behind the city.
fn work_edit<E: Ledger, T: Ledger>(
    session: &mut Session,
    edit: Edit,
    expansions: &mut Expansions<E>,
    tests: &mut Tests<T>,
) -> Result<Result<(), EditRefused>, NoMemory>
    requires ready { IsReady session.old }
    requires lots { HasDistinctLots edit }
    ensures { IfOk result (λ told. Works session.old edit told session.new expansions.old expansions.new) }
{
    // They are sound and within the budget.
    let _before = session.city.sources(); // for the proof
    match session.city.edit(edit, expansions, tests) {
        Ok(()) => {
            session.bill.apply(session.city.changes())?;
            Ok(Ok(()))
        }
        Err(EditRefused::NoMemory) => Err(NoMemory),
        Err(refused) => Ok(Err(refused)),
    }
}

// Does an edit of the session, and returns the sources before it.
fn do_edit<E: Ledger, T: Ledger>(
    session: &mut Session,
    edit: Edit,
    expansions: &mut Expansions<E>,
    tests: &mut Tests<T>,
) -> Result<Result<Sources, EditRefused>, NoMemory>
    requires ready { IsReady session.old }
    requires lots { HasDistinctLots edit }
    ensures { IfOk result (λ told. Tells session.old edit told session.new expansions.old expansions.new) }
{
    // They are sound and within the budget.
    let _before = session.city.sources(); // for the proof
    match session.city.hand_out(edit, expansions, tests) {
        Ok(former) => {
            session.bill.apply(session.city.changes())?;
            Ok(Ok(former))
        }
        Err(EditRefused::NoMemory) => Err(NoMemory),
        Err(refused) => Ok(Err(refused)),
    }
}

/// Does an edit. Version 2 notes the sources before it; version 1 has no undo, and keeps no former ones.
pub(crate) fn change<E: Ledger, T: Ledger>(
    session: &mut Session,
    edit: Edit,
    expansions: &mut Expansions<E>,
    tests: &mut Tests<T>,
) -> Result<List<u8>, NoMemory>
    requires ready { IsReady session.old }
    requires written { IsWritten edit }
    ensures did { (s : State) → IsAt s session.old
        → IfOk result (λ reply. Did (edited s edit) session.old.city.changes session.new reply expansions.old expansions.new) }
    ensures ready { OnOk result (IsReady session.new) }
{
    match session.version {
        Version::One => change_alone(session, edit, expansions, tests),
        Version::Two => change_and_note(session, edit, expansions, tests),
    }
}

fn change_alone<E: Ledger, T: Ledger>(
    session: &mut Session,
    edit: Edit,
    expansions: &mut Expansions<E>,
    tests: &mut Tests<T>,
) -> Result<List<u8>, NoMemory>
    requires ready { IsReady session.old }
    requires written { IsWritten edit }
    requires one { session.old.version ≡ One }
    ensures did { (s : State) → IsAt s session.old
        → IfOk result (λ reply. Did (edited s edit) session.old.city.changes session.new reply expansions.old expansions.new) }
    ensures ready { OnOk result (IsReady session.new) }
{
    let told = work_edit(session, edit, expansions, tests)?;
    match told {
        Ok(()) => accepted(session.alloc, session.quiet),
        Err(refused) => refusal_text(session.alloc, &Refused::Edit(refused)),
    }
}

fn change_and_note<E: Ledger, T: Ledger>(
    session: &mut Session,
    edit: Edit,
    expansions: &mut Expansions<E>,
    tests: &mut Tests<T>,
) -> Result<List<u8>, NoMemory>
    requires ready { IsReady session.old }
    requires written { IsWritten edit }
    requires two { session.old.version ≡ Two }
    ensures did { (s : State) → IsAt s session.old
        → IfOk result (λ reply. Did (edited s edit) session.old.city.changes session.new reply expansions.old expansions.new) }
    ensures ready { OnOk result (IsReady session.new) }
{
    let told = do_edit(session, edit, expansions, tests)?;
    match told {
        Ok(before) => {
            session.history.note(before);
            accepted(session.alloc, session.quiet)
        }
        Err(refused) => refusal_text(session.alloc, &Refused::Edit(refused)),
    }
}

/// Goes back to the sources before the last edit that wasn't undone.
pub(crate) fn undo<E: Ledger, T: Ledger>(
    session: &mut Session,
    expansions: &mut Expansions<E>,
    tests: &mut Tests<T>,
) -> Result<List<u8>, NoMemory>
    requires { IsReady session.old }
    ensures did { (s : State) → IsAt s session.old
        → IfOk result (λ reply. Did (stepped s Refused.NoUndo (undone s.kept s.sources)) session.old.city.changes session.new reply expansions.old expansions.new) }
    ensures ready { OnOk result (IsReady session.new) }
{
    let Some(last) = session.history.past().last() else {
        return refusal_text(session.alloc, &Refused::NoUndo);
    };
    let taken = last.copy(session.alloc)?;
    let told = do_edit(session, Edit::Whole(taken), expansions, tests)?;
    match told {
        Ok(before) => {
            let _ = session.history.undo(before);
            accepted(session.alloc, session.quiet)
        }
        Err(refused) => refusal_text(session.alloc, &Refused::Edit(refused)),
    }
}

/// Goes on to the sources that the last undo left.
pub(crate) fn redo<E: Ledger, T: Ledger>(
    session: &mut Session,
    expansions: &mut Expansions<E>,
    tests: &mut Tests<T>,
) -> Result<List<u8>, NoMemory>
    requires { IsReady session.old }
    ensures did { (s : State) → IsAt s session.old
        → IfOk result (λ reply. Did (stepped s Refused.NoRedo (redone s.kept s.sources)) session.old.city.changes session.new reply expansions.old expansions.new) }
    ensures ready { OnOk result (IsReady session.new) }
{
    let Some(last) = session.history.future().last() else {
        return refusal_text(session.alloc, &Refused::NoRedo);
    };
    let taken = last.copy(session.alloc)?;
    let told = do_edit(session, Edit::Whole(taken), expansions, tests)?;
    match told {
        Ok(before) => {
            let _ = session.history.redo(before);
            accepted(session.alloc, session.quiet)
        }
        Err(refused) => refusal_text(session.alloc, &Refused::Edit(refused)),
    }
}
