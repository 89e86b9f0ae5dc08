//! The numbers of which lines are made.
ghost use Rattle.std.specs.Prelude.{◌≡◌};
ghost use Rattle.generator_model.specs.NumberSequence.{next_number, draw_of};

/// Each number is the one before it times this.
const MULTIPLIER: u64 = 6_364_136_223_846_793_005;

/// And this more. What passes 64 bits is dropped.
const INCREMENT: u64 = 1_442_695_040_888_963_407;

/// So many low bits of a number are not drawn, since they come again soon.
const DROPPED_BITS: u32 = 33;

/// The number behind this one, by a linear congruential sequence.
pub fn next_number(number: u64) -> u64
    ensures { result ≡ next_number number }
{
    number.wrapping_mul(MULTIPLIER).wrapping_add(INCREMENT)
}

/// What is drawn by a number: its high bits.
pub fn draw_of(number: u64) -> u64
    ensures { result ≡ draw_of number }
{
    number >> DROPPED_BITS
}
