ghost use Rattle.std.specs.Prelude.{◌≡◌, flat_map};
ghost use Rattle.cga_check.specs.Uses as spec;
ghost use Rattle.cga_check.specs.Sifting.{sifted};

use super::{Sieve, sift_one};
use crate::usage::Use;
use cga_rule::{Added, Expr, Factor, Primary, Scaled, Term};

#[cycle(expr)]
#[tactic(auto, using(crate::proofs::Layers::exprs))]
pub(super) fn sift_expr<S: Sieve>(expr: &Expr, sieve: &S) -> Result<(), Use>
    ensures { result ≡ sifted (S.is_caught sieve.now) (spec.expr_uses expr.now) }
{
    sift_term(&expr.first, sieve)?;
    sift_all_added(expr.rest.as_slice(), sieve)
}

#[cycle(expr)]
#[tactic(auto, using(crate::proofs::Layers::exprs))]
fn sift_all_added<S: Sieve>(rest: &[Added], sieve: &S) -> Result<(), Use>
    ensures { result ≡ sifted (S.is_caught sieve.now) (flat_map spec.added_uses rest.now) }
{
    for added in rest {
        sift_added(added, sieve)?;
    }
    Ok(())
}

#[cycle(expr)]
#[tactic(auto, using(crate::proofs::Layers::exprs))]
fn sift_added<S: Sieve>(added: &Added, sieve: &S) -> Result<(), Use>
    ensures { result ≡ sifted (S.is_caught sieve.now) (spec.added_uses added.now) }
{
    sift_term(&added.term, sieve)
}

#[cycle(expr)]
#[tactic(auto, using(crate::proofs::Layers::exprs))]
fn sift_term<S: Sieve>(term: &Term, sieve: &S) -> Result<(), Use>
    ensures { result ≡ sifted (S.is_caught sieve.now) (spec.term_uses term.now) }
{
    sift_factor(&term.first, sieve)?;
    sift_all_scaled(term.rest.as_slice(), sieve)
}

#[cycle(expr)]
#[tactic(auto, using(crate::proofs::Layers::exprs))]
fn sift_all_scaled<S: Sieve>(rest: &[Scaled], sieve: &S) -> Result<(), Use>
    ensures { result ≡ sifted (S.is_caught sieve.now) (flat_map spec.scaled_uses rest.now) }
{
    for scaled in rest {
        sift_scaled(scaled, sieve)?;
    }
    Ok(())
}

#[cycle(expr)]
#[tactic(auto, using(crate::proofs::Layers::exprs))]
fn sift_scaled<S: Sieve>(scaled: &Scaled, sieve: &S) -> Result<(), Use>
    ensures { result ≡ sifted (S.is_caught sieve.now) (spec.scaled_uses scaled.now) }
{
    sift_factor(&scaled.factor, sieve)
}

#[cycle(expr)]
#[tactic(auto, using(crate::proofs::Layers::exprs))]
fn sift_factor<S: Sieve>(factor: &Factor, sieve: &S) -> Result<(), Use>
    ensures { result ≡ sifted (S.is_caught sieve.now) (spec.factor_uses factor.now) }
{
    sift_primary(&factor.primary, sieve)
}

#[cycle(expr)]
#[tactic(auto, using(crate::proofs::Layers::exprs))]
fn sift_primary<S: Sieve>(primary: &Primary, sieve: &S) -> Result<(), Use>
    ensures { result ≡ sifted (S.is_caught sieve.now) (spec.primary_uses primary.now) }
{
    match primary {
        Primary::Number(_) | Primary::ScopeSize(_) => Ok(()),
        Primary::Named(name) => sift_one(Use::Named(*name), sieve),
        Primary::Group(inner) | Primary::Floor(inner) | Primary::Ceil(inner) => {
            sift_expr(inner.get(), sieve)
        }
        Primary::Rand { low, high, .. } => {
            sift_expr(low.get(), sieve)?;
            sift_expr(high.get(), sieve)
        }
    }
}
