//! What is proved of runs. Each function here does nothing: its contract is the law, which a caller's
//! proof can cite.
ghost use Rattle.cga_trace.specs.Kept.{ChainsAreKept, NodesAreTold, TurnsAreKept};
ghost use Rattle.cga_trace.specs.Laws.{TextTellsStep};
ghost use Rattle.cga_trace.specs.Sorted.{SortedIsRun};

/// What is told of each turn, by rising stamps, is the run.
pub fn sorted_is_run()
    ensures { SortedIsRun }
{}

/// Each node of a forest that stands for sources keeps what its turn told.
pub fn nodes_are_told()
    ensures { NodesAreTold }
{}

/// And what a turn told is kept by a node at its place.
pub fn turns_are_kept()
    ensures { TurnsAreKept }
{}

/// The kept priorities of a node make its stamp.
pub fn chains_are_kept()
    ensures { ChainsAreKept }
{}

/// No two steps have one text.
pub fn text_tells_step()
    ensures { TextTellsStep }
{}
