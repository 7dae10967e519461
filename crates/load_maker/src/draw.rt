//! The numbers that a load is drawn from.
ghost use Rattle.std.specs.Prelude.{◌≡◌, ◌<◌, ◌^◌};
ghost use Rattle.load_maker.specs.Loads.{drawn};

/// The factor of the generator.
const FACTOR: u64 = 1_103_515_245;

/// What the generator adds.
const ADDEND: u64 = 12_345;

/// The generator's numbers are below this.
const BOUND: u64 = 1 << 31;

/// The number that is drawn behind a number, by a linear congruential generator. Factor and addend
/// are those of the example of `rand` in the standard of C (ANSI X3.159-1989). There some of the
/// number's bits are given; here the modulus is 2^31, and all of the number is. It takes no memory.
#[tactic(auto, unfolding(crate::specs::Loads::drawn))]
pub fn draw(number: u32) -> u32
    ensures value { result ≡ drawn number }
    ensures small { result < 2 ^ 31 }
{
    ((FACTOR * number as u64 + ADDEND) % BOUND) as u32
}
