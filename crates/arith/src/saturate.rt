// Sums held to the range of their type.
ghost use Rattle.std.specs.Prelude.{◌≡◌, ◌+ℤ◌};
ghost use Rattle.arith.specs.Saturate.{saturate};

// The sum, or the end of i32 nearest to it. Rules out a sum that wraps, and one that is refused.
#[tactic(auto, unfolding(crate::specs::Saturate::saturate))]
pub fn saturating_add_i32(a: i32, b: i32) -> i32
    ensures { result ≡ saturate (a +ℤ b) }
{
    a.saturating_add(b)
}
