ghost use Rattle.std.specs.Prelude.{◌≡◌};
ghost use Rattle.cga_expr.specs.Names.{seen};
ghost use Rattle.cga_expr.specs.Value.{expr_value, term_value, factor_value, primary_value};

use crate::arithmetic::{added, ceil, drawn, floor, scaled, signed};
use crate::expr_fault::ExprFault;
use crate::names::Names;
use cga_fraction::Fraction;
use cga_rule::{Expr, Factor, Primary, Term};
use cga_word::word;

/// The value of an expression. A name that is neither a parameter nor an attribute stands for 0;
/// no grammar that is checked has one.
#[cycle(value)]
#[tactic(auto, using(crate::proofs::Layers::layers))]
pub fn value(expr: &Expr, names: &Names) -> Result<Fraction, ExprFault>
    ensures { result ≡ expr_value expr.now (seen names.now) }
{
    let mut sum = term_value(&expr.first, names)?;
    for more in expr.rest.as_slice() {
        let term = term_value(&more.term, names)?;
        sum = added(more.minus, sum, term)?;
    }
    Ok(sum)
}

#[cycle(value)]
#[tactic(auto, using(crate::proofs::Layers::layers))]
fn term_value(term: &Term, names: &Names) -> Result<Fraction, ExprFault>
    ensures { result ≡ term_value term.now (seen names.now) }
{
    let mut product = factor_value(&term.first, names)?;
    for more in term.rest.as_slice() {
        let factor = factor_value(&more.factor, names)?;
        product = scaled(more.divide, product, factor)?;
    }
    Ok(product)
}

#[cycle(value)]
#[tactic(auto, using(crate::proofs::Layers::layers))]
fn factor_value(factor: &Factor, names: &Names) -> Result<Fraction, ExprFault>
    ensures { result ≡ factor_value factor.now (seen names.now) }
{
    let number = primary_value(&factor.primary, names)?;
    Ok(signed(factor.minus, number))
}

#[cycle(value)]
#[tactic(auto, using(crate::proofs::Layers::layers))]
fn primary_value(primary: &Primary, names: &Names) -> Result<Fraction, ExprFault>
    ensures { result ≡ primary_value primary.now (seen names.now) }
{
    match primary {
        Primary::Number(number) => Ok(*number),
        Primary::Named(name) => Ok(names.number(*name)),
        Primary::ScopeSize(axis) => Ok(names.size.along(*axis)),
        Primary::Group(inner) => value(inner.get(), names),
        Primary::Floor(inner) => floor(value(inner.get(), names)?),
        Primary::Ceil(inner) => ceil(value(inner.get(), names)?),
        Primary::Rand {
            number,
            low,
            high,
            steps,
        } => {
            let low = value(low.get(), names)?;
            let high = value(high.get(), names)?;
            drawn(word(names.seed, *number), *steps, low, high)
        }
    }
}
