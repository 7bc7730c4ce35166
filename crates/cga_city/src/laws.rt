//! What is proved of edits. The function here does nothing: its contract is the law, which a caller's proof can cite.
ghost use Rattle.cga_city.specs.Laws.{WholeSetsThem};

/// Sources that a city may have are accepted whole, whatever the order of their rules, and the city then has just them.
pub fn whole_sets_them()
    ensures { WholeSetsThem }
{}
