use crate::renewal::Renewal;
use cga_check::Symbols;
use cga_depend::{Grammars, Pairing};
use cga_expand::RulesByPlace;
use cga_forest::Forest;
use cga_frame::WorldBox;
use cga_queue::{Agenda, Last, Remembered};
use cga_shape::Drawn;
use std::alloc::Global;

/// An update under way.
#[derive(Drop)]
pub struct Work<'a> {
    pub(crate) alloc: Global,
    /// Marked: the marked nodes are those with which the update began.
    pub(crate) forest: Forest,
    pub(crate) agenda: Agenda,
    /// Some of the nodes that are on the agenda.
    pub(crate) remembered: Remembered,
    /// Whether each node of the mark that asks and is left is on the agenda: then nobody has to be looked for.
    pub(crate) all_queued: bool,
    /// How many nodes the walks for those who ask have looked at.
    pub(crate) looked: usize,
    /// Whether each node has the priority that its symbol has today: then one that is asked as before is done.
    pub(crate) priced: bool,
    /// When the last node of the mark is looked at that asks: then nobody has to be looked for behind it.
    pub(crate) last: Last,
    /// A box that nobody of the mark meets who asks.
    pub(crate) clear: Option<WorldBox>,
    /// The new grammar, with what was read of it.
    pub(crate) symbols: Symbols<'a>,
    pub(crate) grammars: Grammars<'a>,
    /// What came and went that is no instance, for the dependents.
    pub(crate) log: Vec<Pairing>,
    pub(crate) gone: Vec<Drawn>,
    pub(crate) come: Vec<Drawn>,
    /// The new grammar, with the places of the rules of the symbols that had a turn.
    pub(crate) rules: RulesByPlace<'a>,
    pub(crate) renewal: Renewal<'a>,
}
