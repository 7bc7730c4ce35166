//! What a valid grammar has. Each function here does nothing: its contract is the law, which a
//! caller's proof can cite.
ghost use Rattle.cga_check.specs.Validity.{ChildrenHaveRules, ProbabilitiesAddUp, SymbolsAgree};

/// All rules of a symbol have one priority and one number of parameters.
pub fn symbols_agree()
    ensures { SymbolsAgree }
{}

/// Each child that a rule names has rules, with as many parameters as the child has arguments.
pub fn children_have_rules()
    ensures { ChildrenHaveRules }
{}

/// The probabilities of the alternatives of each rule add up to 1.
pub fn probabilities_add_up()
    ensures { ProbabilitiesAddUp }
{}
