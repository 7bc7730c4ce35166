ghost use Rattle.std.specs.Prelude.{◌≡◌, flat_map};
ghost use Rattle.cga_check.specs.Uses as spec;
ghost use Rattle.cga_check.specs.Sifting.{sifted};

use super::Sieve;
use super::cond::sift_cond;
use super::item::sift_items;
use crate::usage::Use;
use cga_fraction::SharedBox;
use cga_rule::{Alternative, Cond, Rule};

/// Err is the first use of the rule that the sieve catches.
#[tactic(auto, using(crate::proofs::Layers::items), unfolding(crate::specs::Uses::rule_uses))]
pub(crate) fn sift_rule<S: Sieve>(rule: &Rule, sieve: &S) -> Result<(), Use>
    ensures { result ≡ sifted (S.is_caught sieve.now) (spec.rule_uses rule.now) }
{
    sift_condition(&rule.cond, sieve)?;
    sift_alternatives(rule.alternatives.as_slice(), sieve)
}

#[tactic(auto, using(crate::proofs::Layers::items))]
fn sift_condition<S: Sieve>(cond: &Option<SharedBox<Cond>>, sieve: &S) -> Result<(), Use>
    ensures { result ≡ sifted (S.is_caught sieve.now) (spec.condition_uses cond.now) }
{
    match cond {
        None => Ok(()),
        Some(cond) => sift_cond(cond.get(), sieve),
    }
}

#[tactic(auto, using(crate::proofs::Layers::items))]
fn sift_alternatives<S: Sieve>(alternatives: &[Alternative], sieve: &S) -> Result<(), Use>
    ensures { result ≡ sifted (S.is_caught sieve.now) (flat_map spec.alternative_uses alternatives.now) }
{
    for alternative in alternatives {
        sift_alternative(alternative, sieve)?;
    }
    Ok(())
}

#[tactic(auto, using(crate::proofs::Layers::items))]
fn sift_alternative<S: Sieve>(alternative: &Alternative, sieve: &S) -> Result<(), Use>
    ensures { result ≡ sifted (S.is_caught sieve.now) (spec.alternative_uses alternative.now) }
{
    sift_items(alternative.items.as_slice(), sieve)
}
