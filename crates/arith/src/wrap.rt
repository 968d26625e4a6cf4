// Products modulo 2^64.
ghost use Rattle.std.specs.Prelude.{◌≡◌};
ghost use Rattle.arith.specs.Wrap.{mul64};

// The low 64 bits of the product. Rules out a product that is held to the range or refused, and the high 64 bits.
#[tactic(auto, unfolding(crate::specs::Wrap::mul64))]
pub fn wrapping_mul_u64(a: u64, b: u64) -> u64
    ensures { result ≡ mul64 a b }
{
    a.wrapping_mul(b)
}
