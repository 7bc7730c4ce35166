//! Lists of members that are read one after the other, whatever the members are.
ghost use Rattle.std.specs.Prelude.{◌≡◌, [], Bool};
ghost use Rattle.cga_form.specs.Cursor.{input_of, Reads};
ghost use Rattle.cga_form.specs.Reader.{Reader, begins, many, many_from};
ghost use Rattle.cga_syntax.specs.declared.lexeme.Lexeme.{Lexeme};

use cga_form::fault::Fault;
use cga_form::tokens::Tokens;
use cga_fraction::{List, Stop};
use std::alloc::Global;

/// At most so many members, each where one comes next.
pub(crate) fn few_of<
    T: Drop,
    C: Fn(&Tokens<'_>) -> bool,
    M: Fn(&mut Tokens<'_>) -> Result<T, Stop<Fault>>,
>(
    alloc: Global,
    tokens: &mut Tokens<'_>,
    most: usize,
    comes: C,
    member: M,
) -> Result<List<T>, Stop<Fault>>
    requires comes { C.IsAlwaysCallable comes }
    requires member { M.IsAlwaysCallable member }
    ensures { (test : Lexeme → Bool) (p : Reader T)
        → ((x : _) (r : _) → C.post comes x r → r ≡ begins test (input_of x.now).left)
        → ((x : _) (r : _) (y : _) → M.post member x r y → Reads (p (input_of x.now)) r (input_of y.now))
        → Reads (many_from test p most [] (input_of tokens.old)) result (input_of tokens.new) }
{
    let mut list = List::new(alloc);
    let mut turns = most;
    'members: while turns > 0 && comes(tokens) {
        let next = member(tokens)?;
        list.push(next)?;
        turns -= 1;
    }
    Ok(list)
}

/// All members, each where one comes next.
#[tactic(auto, unfolding(cga_form::specs::Reader::many))]
pub(crate) fn all_of<
    T: Drop,
    C: Fn(&Tokens<'_>) -> bool,
    M: Fn(&mut Tokens<'_>) -> Result<T, Stop<Fault>>,
>(alloc: Global, tokens: &mut Tokens<'_>, comes: C, member: M) -> Result<List<T>, Stop<Fault>>
    requires comes { C.IsAlwaysCallable comes }
    requires member { M.IsAlwaysCallable member }
    ensures { (test : Lexeme → Bool) (p : Reader T)
        → ((x : _) (r : _) → C.post comes x r → r ≡ begins test (input_of x.now).left)
        → ((x : _) (r : _) (y : _) → M.post member x r y → Reads (p (input_of x.now)) r (input_of y.now))
        → Reads (many test p (input_of tokens.old)) result (input_of tokens.new) }
{
    // Each member takes a token.
    few_of(alloc, tokens, tokens.rest.len(), comes, member)
}
