ghost use Rattle.std.specs.Prelude.{◌≡◌, ◌<◌};
ghost use Rattle.cga_form.specs.Cursor.{input_of, Finds, Reads};
ghost use Rattle.cga_form.specs.Reader.{many};
ghost use Rattle.cga_form.specs.Tokens.{is_keyword};
ghost use Rattle.cga_syntax.specs.declared.keyword.Keyword.TheVariants as keyword;
ghost use Rattle.cga_parser.specs.Grammar as spec;
ghost use Rattle.cga_parser.specs.Portions as portions;

use crate::expr::{all_added, all_scaled, expr};
use crate::first::{both, ended, fitted, with_first};
use crate::members::all_of;
use cga_form::fault::Fault;
use cga_form::heads::ScopeWord;
use cga_form::tokens::Tokens;
use cga_form::{texts, words};
use cga_fraction::{List, Stop};
use cga_lexer::Sign;
use cga_syntax::{Cond, Conj, Expr, Factor, Keyword, Primary, Relation, Term, Test};
use cga_word::{Answer, Axis, Target};
use std::alloc::Global;

/// A relation and what stands after it.
fn compared(
    alloc: Global,
    tokens: &mut Tokens<'_>,
    depth: u8,
) -> Result<(Relation, Expr), Stop<Fault>>
    ensures { Reads (portions.compared depth (spec.inner_of depth) (input_of tokens.old)) result (input_of tokens.new) }
{
    let relation = tokens.take(words::relation(tokens.peek()))?;
    let right = expr(alloc, tokens, depth)?;
    Ok((relation, right))
}

/// What a comparison goes on with.
#[tactic(auto, unfolding(crate::specs::Grammar::compare_after))]
fn compare_after(
    alloc: Global,
    tokens: &mut Tokens<'_>,
    depth: u8,
    left: Expr,
) -> Result<Test, Stop<Fault>>
    ensures { Reads (spec.compare_after depth (spec.inner_of depth) left (input_of tokens.old)) result (input_of tokens.new) }
{
    let (left, (relation, right)) = both(left, compared(alloc, tokens, depth))?;
    Ok(Test::Compare {
        left,
        relation,
        right,
    })
}

#[tactic(auto, unfolding(crate::specs::Grammar::occ_parts))]
fn occ_parts(tokens: &mut Tokens<'_>, depth: u8) -> Result<(Target, bool, Answer), Fault>
    ensures { Finds (spec.occ_parts depth (spec.inner_of depth) (input_of tokens.old)) result (input_of tokens.new) }
{
    tokens.enter(Sign::LeftRound, depth)?;
    let target = tokens.take(texts::target(tokens.peek()))?;
    tokens.sign(Sign::RightRound)?;
    let equal = tokens.take(words::equality(tokens.peek()))?;
    let state = tokens.take(texts::state(tokens.peek()))?;
    Ok((target, equal, state))
}

/// A comparison that begins with a size of the scope.
fn size_rest(
    alloc: Global,
    tokens: &mut Tokens<'_>,
    depth: u8,
    axis: Axis,
) -> Result<Test, Stop<Fault>>
    ensures { Reads (spec.scope_rest depth (spec.inner_of depth) (ScopeWord.Size axis) (input_of tokens.old)) result (input_of tokens.new) }
{
    let factors = all_scaled(alloc, tokens, depth)?;
    let (factors, terms) = both(factors, all_added(alloc, tokens, depth))?;
    let factor = Factor {
        minus: false,
        primary: Primary::ScopeSize(axis),
    };
    let first = Term {
        first: factor,
        rest: fitted(factors),
    };
    let rest = fitted(terms);
    compare_after(alloc, tokens, depth, Expr { first, rest })
}

/// What stands after `Scope.` and a word.
fn scope_rest(
    alloc: Global,
    tokens: &mut Tokens<'_>,
    depth: u8,
    word: ScopeWord,
) -> Result<Test, Stop<Fault>>
    ensures { Reads (spec.scope_rest depth (spec.inner_of depth) word (input_of tokens.old)) result (input_of tokens.new) }
{
    match word {
        ScopeWord::Occ => {
            let (target, equal, state) = occ_parts(tokens, depth)?;
            Ok(Test::Occ {
                target,
                equal,
                state,
            })
        }
        ScopeWord::Size(axis) => size_rest(alloc, tokens, depth, axis),
    }
}

/// A test that begins with the word `Scope`.
fn scope_test(alloc: Global, tokens: &mut Tokens<'_>, depth: u8) -> Result<Test, Stop<Fault>>
    ensures { Reads (portions.scope_test depth (spec.inner_of depth) (input_of tokens.old)) result (input_of tokens.new) }
{
    tokens.keyword(Keyword::Scope)?;
    tokens.sign(Sign::Dot)?;
    let word = tokens.take(words::scope_word(tokens.peek()))?;
    scope_rest(alloc, tokens, depth, word)
}

fn comparison(alloc: Global, tokens: &mut Tokens<'_>, depth: u8) -> Result<Test, Stop<Fault>>
    ensures { Reads (portions.comparison depth (spec.inner_of depth) (input_of tokens.old)) result (input_of tokens.new) }
{
    let left = expr(alloc, tokens, depth)?;
    compare_after(alloc, tokens, depth, left)
}

/// A condition in one more bracket.
#[cycle(cond)]
fn inner(alloc: Global, tokens: &mut Tokens<'_>, depth: u8) -> Result<Cond, Stop<Fault>>
    requires { 0 < depth }
    ensures { Reads (spec.inner_of depth (input_of tokens.old)) result (input_of tokens.new) }
{
    cond(alloc, tokens, depth - 1)
}

#[cycle(cond)]
#[tactic(auto, unfolding(crate::specs::Grammar::square))]
fn square(alloc: Global, tokens: &mut Tokens<'_>, depth: u8) -> Result<Cond, Stop<Fault>>
    ensures { Reads (spec.square depth (spec.inner_of depth) (input_of tokens.old)) result (input_of tokens.new) }
{
    tokens.enter(Sign::LeftSquare, depth)?;
    let cond = inner(alloc, tokens, depth);
    ended(tokens, cond, Sign::RightSquare)
}

#[cycle(cond)]
#[tactic(auto, unfolding(crate::specs::Grammar::one_test))]
fn test(alloc: Global, tokens: &mut Tokens<'_>, depth: u8) -> Result<Test, Stop<Fault>>
    ensures { Reads (spec.one_test depth (spec.inner_of depth) (input_of tokens.old)) result (input_of tokens.new) }
{
    if tokens.at_sign(Sign::LeftSquare) {
        return Ok(Test::Group(square(alloc, tokens, depth)?));
    }
    if tokens.at_keyword(Keyword::Not) {
        tokens.keyword(Keyword::Not)?;
        return Ok(Test::Not(square(alloc, tokens, depth)?));
    }
    if tokens.at_keyword(Keyword::Scope) {
        return scope_test(alloc, tokens, depth);
    }
    comparison(alloc, tokens, depth)
}

/// The tests after the first.
#[cycle(cond)]
#[tactic(auto, unfolding(crate::specs::Grammar::further_test))]
fn further_tests(
    alloc: Global,
    tokens: &mut Tokens<'_>,
    depth: u8,
) -> Result<List<Test>, Stop<Fault>>
    ensures { Reads (many (is_keyword keyword.And) (spec.further_test depth (spec.inner_of depth)) (input_of tokens.old)) result (input_of tokens.new) }
{
    all_of(
        alloc,
        tokens,
        |rest| rest.at_keyword(Keyword::And),
        |rest: &mut Tokens<'_>|
            ensures { Reads (spec.further_test depth (spec.inner_of depth) (input_of rest.old)) result (input_of rest.new) }
        {
            rest.keyword(Keyword::And)?;
            test(alloc, rest, depth)
        },
    )
}

#[cycle(cond)]
#[tactic(auto, unfolding(crate::specs::Grammar::conj))]
fn conj(alloc: Global, tokens: &mut Tokens<'_>, depth: u8) -> Result<Conj, Stop<Fault>>
    ensures { Reads (spec.conj depth (spec.inner_of depth) (input_of tokens.old)) result (input_of tokens.new) }
{
    let first = test(alloc, tokens, depth)?;
    let (first, rest) = both(first, further_tests(alloc, tokens, depth))?;
    Ok(Conj {
        tests: with_first(first, rest)?,
    })
}

/// The conjunctions after the first.
#[cycle(cond)]
#[tactic(auto, unfolding(crate::specs::Grammar::further_conj))]
fn further_conjs(
    alloc: Global,
    tokens: &mut Tokens<'_>,
    depth: u8,
) -> Result<List<Conj>, Stop<Fault>>
    ensures { Reads (many (is_keyword keyword.Or) (spec.further_conj depth (spec.inner_of depth)) (input_of tokens.old)) result (input_of tokens.new) }
{
    all_of(
        alloc,
        tokens,
        |rest| rest.at_keyword(Keyword::Or),
        |rest: &mut Tokens<'_>|
            ensures { Reads (spec.further_conj depth (spec.inner_of depth) (input_of rest.old)) result (input_of rest.new) }
        {
            rest.keyword(Keyword::Or)?;
            conj(alloc, rest, depth)
        },
    )
}

/// A condition, where so many brackets may be opened.
#[cycle(cond)]
#[tactic(auto, unfolding(crate::specs::Grammar::cond, crate::specs::Grammar::cond_layer))]
pub(crate) fn cond(alloc: Global, tokens: &mut Tokens<'_>, depth: u8) -> Result<Cond, Stop<Fault>>
    ensures { Reads (spec.cond depth (input_of tokens.old)) result (input_of tokens.new) }
{
    let first = conj(alloc, tokens, depth)?;
    let (first, rest) = both(first, further_conjs(alloc, tokens, depth))?;
    Ok(Cond {
        conjs: with_first(first, rest)?,
    })
}
