// Little-endian numbers in a list of bytes. A byte past the end reads as 0.
ghost use Rattle.std.specs.Prelude.{◌≡◌};
ghost use Rattle.arith.specs.Bytes.{byte_at, short_at, word_at, double_at, signed_at};

// The byte at a place, 0 past the end. Rules out the byte beside it, and a fault past the end.
pub fn byte(bytes: &[u8], at: usize) -> u8
    ensures { result ≡ byte_at bytes.now at }
{
    bytes.get(at).copied().unwrap_or(0)
}

// The u16 from a place on. Rules out the high byte first, and a fault at the end.
// Kept: the test keeps `at + 1` in range, here and below; `at.saturating_add(1)` with no test reads words and doubles slower than before.
#[tactic(auto, unfolding(crate::specs::Bytes::short_at))]
pub fn short(bytes: &[u8], at: usize) -> u16
    ensures { result ≡ short_at bytes.now at }
{
    if bytes.len() <= at {
        return 0;
    }
    u16::from_le_bytes([byte(bytes, at), byte(bytes, at + 1)])
}

// The u32 from a place on. Rules out the high half first, and a fault at the end.
// Kept: the four are not one generic reader; `short`, this and `double` are each a line over the next narrower one, as its definition is, down to `byte`.
#[tactic(auto, unfolding(crate::specs::Bytes::word_at), using(crate::proofs::bytes::Laws::word_none))]
pub fn word(bytes: &[u8], at: usize) -> u32
    ensures { result ≡ word_at bytes.now at }
{
    if bytes.len() <= at {
        return 0;
    }
    u32::from(short(bytes, at)) + (u32::from(short(bytes, at + 2)) << 16)
}

// The u64 from a place on. Rules out the high half first, and a fault at the end.
#[tactic(auto, unfolding(crate::specs::Bytes::double_at), using(crate::proofs::bytes::Laws::double_none))]
pub fn double(bytes: &[u8], at: usize) -> u64
    ensures { result ≡ double_at bytes.now at }
{
    if bytes.len() <= at {
        return 0;
    }
    u64::from(word(bytes, at)) + (u64::from(word(bytes, at + 4)) << 32)
}

// The i32 from a place on, in two's complement. Rules out the unsigned number, and a sign kept apart.
#[tactic(auto, unfolding(crate::specs::Bytes::signed_at, crate::specs::Bytes::signed_of))]
pub fn signed(bytes: &[u8], at: usize) -> i32
    ensures { result ≡ signed_at bytes.now at }
{
    word(bytes, at).cast_signed()
}
