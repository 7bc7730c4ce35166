use cga_word::Name;

/// Why a grammar isn't valid. A number is a rule's id; the name is the one that the rule, or the
/// list of attributes, has wrong.
#[derive(Clone, Copy, Debug, PartialEq, Eq)]
pub enum CheckFault {
    TooManyRules,
    TooManyAttributes,
    DoubleAttribute(Name),
    DoubleId(u32),
    SplitPriority(u32, Name),
    WrongArity(u32, Name),
    DoubleName(u32, Name),
    BadProbability(u32),
    UnknownSymbol(u32, Name),
    PartsDiffer(u32),
    UnknownName(u32, Name),
}
