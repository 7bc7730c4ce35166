/// What a trace is judged to be: the run, or not, with the least place, from 1, at which the two differ
/// or one has ended.
#[derive(Clone, Copy, Debug, PartialEq, Eq)]
pub enum Verdict {
    Accepted,
    Rejected(u32),
}
