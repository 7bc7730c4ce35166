/// One step more than the run of any sources that a script has.
pub const MOST_STEPS: usize = 400_001;
