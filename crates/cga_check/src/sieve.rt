//! The uses of a tree in reading order, looked through up to the first that is caught. There is one walk
//! for all that is asked of uses.
ghost use Rattle.std.specs.Prelude.{◌≡◌, Bool};
ghost use Rattle.cga_check.specs.Uses.{only};
ghost use Rattle.cga_check.specs.Sifting.{sifted};
ghost use Rattle.cga_check.specs.declared.usage.Use.{Use};

mod cond;
mod expr;
mod item;
mod rule;

use crate::usage::Use;
pub(crate) use rule::sift_rule;

/// A test of single uses.
pub(crate) trait Sieve {
    ghost is_caught: { Self → Use → Bool };

    fn catches(&self, at: &Use) -> bool
        ensures { result ≡ is_caught self.now at.now };
}

#[tactic(auto, unfolding(crate::specs::Sifting::sifted, crate::specs::Uses::only))]
fn sift_one<S: Sieve>(at: Use, sieve: &S) -> Result<(), Use>
    ensures { result ≡ sifted (S.is_caught sieve.now) (only at) }
{
    if sieve.catches(&at) {
        return Err(at);
    }
    Ok(())
}
