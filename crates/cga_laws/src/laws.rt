//! What holds of lines and of the states that they come to, by the definition of the output.
ghost use Rattle.std.specs.Prelude.{List};
ghost use Rattle.cga_form.specs.Lines.{Line};
ghost use Rattle.cga_laws.specs.Dumped.{DumpsAreSetBack, ScriptsAreSetBack, StatesAreSpelled};
ghost use Rattle.cga_laws.specs.Refusing.{RefusalsChangeNothing};
ghost use Rattle.cga_laws.specs.Restoring.{RedosRestore, UndosRestore};
ghost use Rattle.cga_laws.specs.Staying.{OutputsStay, RepliesBeginOutput, RepliesStay};
ghost use Rattle.cga_laws.specs.Undos.{StatesAreWithin, UndosGoThrough, RedosGoThrough};
ghost use Rattle.cga_parser.specs.BlockTells.{GrammarTells};
ghost use Rattle.cga_script.specs.CityLines.{CityTells};
ghost use Rattle.cga_script.specs.Commands.{CommandTells};
ghost use Rattle.cga_script.specs.declared.version.Version.{Version};
ghost use Rattle.cga_top.specs.Told.{command_of, rules_of, city_of};

use cga_city::laws::whole_sets_them;
use cga_script::dump_reads_back;

/// What a line outside a block is taken for is the one thing that it tells. Does nothing: its contract is the law.
pub fn commands_are_told()
    ensures { (version : Version) (line : Line) → CommandTells version line (command_of version line) }
{}

/// What the lines of a block say, of rules or of a whole city, is the one thing that they tell. Does nothing: its contract
/// is the law.
pub fn blocks_are_told()
    ensures rules { (lines : List Line) → GrammarTells lines (rules_of lines) }
    ensures city { (lines : List Line) → CityTells lines (city_of lines) }
{}

/// Whatever lines came, the sources are sound, and come to no more shapes than the version allows.
pub fn states_are_within_the_budget()
    ensures { StatesAreWithin }
{}

/// Whatever lines came, an undo, where there is a past, is an edit that goes through and leaves just the sources that it
/// takes; likewise a redo. So only memory can be wanting.
pub fn undo_is_never_refused()
    ensures undo { UndosGoThrough }
    ensures redo { RedosGoThrough }
{}

/// What is read of the dump of a city's sources, set as a whole in any city of the same budget, gives just these sources
/// again, the rules by rising id, unless memory is wanting. Of sources that a block said each line is one that is said.
pub fn dumps_are_set_back()
    ensures { DumpsAreSetBack }
{
    dump_reads_back();
    whole_sets_them();
}

/// Whatever lines came, by `put`, by blocks or by undos, lines say each part of the sources. So what is read of each dump of
/// a script, set as a whole in any city of its budget, gives the sources back, unless memory is wanting.
pub fn every_dump_is_set_back()
    ensures spelled { StatesAreSpelled }
    ensures back { ScriptsAreSetBack }
{
    dump_reads_back();
    dumps_are_set_back();
}

/// A refused command, a line or a block up to its `end`, changes nothing: all other lines are replied to as without it. Only
/// where it is the first line that isn't blank, a `version 2` behind it comes too late.
pub fn refusals_change_nothing()
    ensures { RefusalsChangeNothing }
{}

/// What was told stays told. Wherever a script is cut, the replies to the lines before the cut begin its output; behind an LF
/// and outside of a block they are the output of what stands before the cut.
pub fn what_was_told_stays()
    ensures replies { RepliesStay }
    ensures output { RepliesBeginOutput }
    ensures whole { OutputsStay }
{}

/// Behind an accepted edit or `redo`, an `undo` gives the sources and every report but `stats` as they were before; behind an
/// accepted `undo`, so does a `redo`. Nothing else is otherwise either, but what can be undone and redone.
pub fn undo_restores()
    ensures undo { UndosRestore }
    ensures redo { RedosRestore }
{}
