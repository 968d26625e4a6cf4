// Signed 32-bit numbers as unsigned ones, so that the rest is unsigned arithmetic.
ghost use Rattle.std.specs.Prelude.{◌≡◌, ◌<◌};
ghost use Rattle.arith.specs.Level.{level_of, count_of, number_of, pattern_of};

// How far x is above the least i32, x + 2^31: the same order, from 0 on. Rules out x, and x with its sign dropped.
pub fn level(x: i32) -> u64
    ensures { (result ≡ level_of x) × (result < 4294967296) }
{
    u64::from(x.abs_diff(i32::MIN))
}

// A size or a count: 0 for a negative one. Rules out the magnitude, and the 32-bit pattern.
pub fn count(x: i32) -> u64
    ensures { (result ≡ count_of x) × (result < 2147483648) }
{
    u64::from(x.max(0).unsigned_abs())
}

// The unsigned number of the same 32 bits. Rules out the level, and a sign extended to 64 bits.
pub fn pattern(x: i32) -> u64
    ensures { (result ≡ pattern_of x) × (result < 4294967296) }
{
    u64::from(x.cast_unsigned())
}

// The number of a level; past the last level the largest. Rules out a level taken for a number, and a sum that wraps.
#[tactic(auto, unfolding(crate::specs::Level::number_of))]
pub fn from_level(l: u64) -> i32
    ensures { result ≡ number_of l }
{
    i32::MIN.saturating_add_unsigned(u32::try_from(l).unwrap_or(u32::MAX))
}
