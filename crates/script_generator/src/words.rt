ghost use Rattle.std.specs.Prelude.{◌≡◌};
ghost use Rattle.script_generator.specs.Words.{generator, word_of, after_word};

use rand_pcg::Pcg32;
use rand_pcg::rand_core::utils::NextWord;

/// The generator of a seed.
#[tactic(auto, unfolding(crate::specs::Words::generator))]
pub(crate) fn generator(seed: u64) -> Pcg32
    ensures { result ≡ generator seed }
{
    Pcg32::new(seed, 1)
}

/// The next word.
#[tactic(auto, unfolding(crate::specs::Words::word_of, crate::specs::Words::after_word))]
pub(crate) fn draw(rng: &mut Pcg32) -> u32
    ensures word { result ≡ word_of rng.old }
    ensures rest { rng.new ≡ after_word rng.old }
{
    rng.next_word()
}
