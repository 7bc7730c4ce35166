ghost use Rattle.std.specs.Prelude.{◌≡◌, ◌∷◌, List, IfOk};
ghost use Rattle.cga_form.specs.Cursor.{input_of, Reads};
ghost use Rattle.cga_form.specs.Reader.{Input, ReadResult, and_then, pure};
ghost use Rattle.cga_parser.specs.Gained.{ReadsBoth};
ghost use Rattle.cga_parser.specs.Grammar as spec;

use cga_form::fault::Fault;
use cga_form::tokens::Tokens;
use cga_fraction::{Boxed, List, NoMemory, Shared, SharedBox, Stop};
use cga_lexer::Sign;
use std::alloc::Global;

/// The list with a member before the others, in no more room than it takes.
pub(crate) fn with_first<T: Drop>(first: T, rest: List<T>) -> Result<List<T>, NoMemory>
    ensures { IfOk result (λ all. all ≡ first ∷ rest) }
{
    let mut all = rest.into_vec();
    all.reserve_exact(1)?;
    all.insert(0, first)?;
    all.shrink_to_fit();
    Ok(List::from_vec(all))
}

/// The list with a member before the others, if these were read, and the sign is taken that closes the list.
pub(crate) fn closed<T: Drop>(
    tokens: &mut Tokens<'_>,
    end: Sign,
    first: T,
    rest: Result<List<T>, Stop<Fault>>,
) -> Result<List<T>, Stop<Fault>>
    ensures { (o : ReadResult (List T)) → Reads o rest (input_of tokens.old) → Reads (and_then o (λ more j. and_then (spec.sign end j) (λ _. pure (first ∷ more)))) result (input_of tokens.new) }
{
    let all = with_first(first, rest?)?;
    tokens.sign(end)?;
    Ok(all)
}

/// The list as it is, in no more room than it takes.
pub(crate) fn fitted<T>(list: List<T>) -> List<T>
    ensures { result ≡ list }
{
    let mut all = list.into_vec();
    all.shrink_to_fit();
    List::from_vec(all)
}

/// What was read, in a box. Takes memory.
pub(crate) fn boxed<T: Drop>(
    alloc: Global,
    read: Result<T, Stop<Fault>>,
) -> Result<Boxed<T>, Stop<Fault>>
    ensures { (o : ReadResult T) (i : Input) → Reads o read i → Reads o result i }
{
    Ok(Boxed::new(alloc, read?)?)
}

/// The list that was read, so that several may share it. Takes memory.
pub(crate) fn shared<T: Drop>(
    alloc: Global,
    read: Result<List<T>, Stop<Fault>>,
) -> Result<Shared<T>, Stop<Fault>>
    ensures { (o : ReadResult (List T)) (i : Input) → Reads o read i → Reads o result i }
{
    Ok(Shared::from_vec(alloc, read?.into_vec())?)
}

/// What was read, in a box that several may share. Takes memory.
pub(crate) fn shared_box<T: Drop>(
    alloc: Global,
    read: Result<T, Stop<Fault>>,
) -> Result<SharedBox<T>, Stop<Fault>>
    ensures { (o : ReadResult T) (i : Input) → Reads o read i → Reads o result i }
{
    Ok(SharedBox::new(alloc, read?)?)
}

/// What was read, once the sign is taken that ends it.
pub(crate) fn ended<T: Drop>(
    tokens: &mut Tokens<'_>,
    read: Result<T, Stop<Fault>>,
    end: Sign,
) -> Result<T, Stop<Fault>>
    ensures { (o : ReadResult T) → Reads o read (input_of tokens.old) → Reads (and_then o (λ x j. and_then (spec.sign end j) (λ _. pure x))) result (input_of tokens.new) }
{
    let value = read?;
    tokens.sign(end)?;
    Ok(value)
}

/// Both, where the second was read.
pub(crate) fn both<A: Drop, B: Drop>(
    first: A,
    second: Result<B, Stop<Fault>>,
) -> Result<(A, B), Stop<Fault>>
    ensures { (o : ReadResult B) (i : Input) → Reads o second i → ReadsBoth first o result i }
{
    Ok((first, second?))
}
