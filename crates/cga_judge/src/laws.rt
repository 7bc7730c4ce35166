//! What is proved of runs. Each function here does nothing: its contract is the law, which a caller's
//! proof can cite.
ghost use Rattle.cga_judge.specs.Laws.{RunEnds, RunIsOne};

/// Sources have one run, so a trace is accepted if and only if it is that run.
pub fn run_is_one()
    ensures { RunIsOne }
{}

/// Where sources come to no more shapes than a budget, the run has ended after as many steps as that.
pub fn run_ends()
    ensures { RunEnds }
{}
