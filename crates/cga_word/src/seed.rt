ghost use Rattle.std.specs.Prelude.{◌≡◌};
ghost use Rattle.cga_word.specs.Seed.{child_seed_of, shape_word_of};

use rand_core::utils::NextWord;
use rand_pcg::Lcg64Xsh32;

/// The seed of the child with this index of a shape with this seed. A root's seed is its lot's.
#[tactic(auto, unfolding(crate::specs::Seed::word_of, rand_pcg::specs::Lcg::state_after))]
pub fn child_seed(seed: u64, index: u16) -> u64
    ensures { result ≡ child_seed_of seed index }
{
    let mut words = Lcg64Xsh32::new(seed, u64::from(index) + 1);
    let low = u64::from(words.next_word());
    let high = u64::from(words.next_word());
    low + high * (1 << 32)
}

/// The random word with this number, from 0, of a shape with this seed. It depends on no other
/// shape and on no order of expansion.
#[tactic(auto, unfolding(crate::specs::Seed::word_of))]
pub fn word(seed: u64, number: u16) -> u32
    ensures { result ≡ shape_word_of seed number }
{
    let mut words = Lcg64Xsh32::new(seed, 0);
    words.advance(u64::from(number));
    words.next_word()
}
