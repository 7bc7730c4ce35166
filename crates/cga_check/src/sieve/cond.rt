ghost use Rattle.std.specs.Prelude.{◌≡◌, flat_map};
ghost use Rattle.cga_check.specs.Uses as spec;
ghost use Rattle.cga_check.specs.Sifting.{sifted};

use super::expr::sift_expr;
use super::{Sieve, sift_one};
use crate::usage::Use;
use cga_rule::{Cond, Conj, Test};

#[cycle(cond)]
#[tactic(auto, using(crate::proofs::Layers::conds))]
pub(super) fn sift_cond<S: Sieve>(cond: &Cond, sieve: &S) -> Result<(), Use>
    ensures { result ≡ sifted (S.is_caught sieve.now) (spec.cond_uses cond.now) }
{
    sift_conjs(cond.conjs.as_slice(), sieve)
}

#[cycle(cond)]
#[tactic(auto, using(crate::proofs::Layers::conds))]
fn sift_conjs<S: Sieve>(conjs: &[Conj], sieve: &S) -> Result<(), Use>
    ensures { result ≡ sifted (S.is_caught sieve.now) (flat_map spec.conj_uses conjs.now) }
{
    for conj in conjs {
        sift_conj(conj, sieve)?;
    }
    Ok(())
}

#[cycle(cond)]
#[tactic(auto, using(crate::proofs::Layers::conds))]
fn sift_conj<S: Sieve>(conj: &Conj, sieve: &S) -> Result<(), Use>
    ensures { result ≡ sifted (S.is_caught sieve.now) (spec.conj_uses conj.now) }
{
    sift_tests(conj.tests.as_slice(), sieve)
}

#[cycle(cond)]
#[tactic(auto, using(crate::proofs::Layers::conds))]
fn sift_tests<S: Sieve>(tests: &[Test], sieve: &S) -> Result<(), Use>
    ensures { result ≡ sifted (S.is_caught sieve.now) (flat_map spec.test_uses tests.now) }
{
    for test in tests {
        sift_test(test, sieve)?;
    }
    Ok(())
}

#[cycle(cond)]
#[tactic(auto, using(crate::proofs::Layers::conds))]
fn sift_test<S: Sieve>(test: &Test, sieve: &S) -> Result<(), Use>
    ensures { result ≡ sifted (S.is_caught sieve.now) (spec.test_uses test.now) }
{
    match test {
        Test::Group(cond) | Test::Not(cond) => sift_cond(cond, sieve),
        Test::Occ { target, .. } => sift_one(Use::Answer(*target), sieve),
        Test::Compare { left, right, .. } => {
            sift_expr(left, sieve)?;
            sift_expr(right, sieve)
        }
    }
}
