// The term of a cell in its chunk's hash, and the digest's fold.
ghost use Rattle.std.specs.Prelude.{◌≡◌, ◌<◌};
ghost use Rattle.stand.specs.Hash.{digest_start, fold_three, fold_word, fold_words, shape_words, split_mix, term_of};
ghost use Rattle.stand.specs.Answer.{answer_of};
ghost use Rattle.stand.specs.Read.{digest_call};

use crate::volume::Volume;
use crate::volume::refusal::Refusal;
use arith::level::pattern;
use arith::wrap::wrapping_mul_u64;

// Vigna's SplitMix64: the output at the state x. Rules out a step left out, and another constant.
#[tactic(auto, unfolding(crate::specs::Hash::split_mix, crate::specs::Hash::xor_shift))]
pub fn splitmix64(x: u64) -> u64
    ensures { result ≡ split_mix x }
{
    let a = x.wrapping_add(0x9e37_79b9_7f4a_7c15);
    let b = wrapping_mul_u64(a ^ (a >> 30), 0xbf58_476d_1ce4_e5b9);
    let c = wrapping_mul_u64(b ^ (b >> 27), 0x94d0_49bb_1331_11eb);
    c ^ (c >> 31)
}

// One cell's part in its chunk's hash.
#[tactic(auto, unfolding(crate::specs::Hash::term_of))]
pub(crate) fn term(within: u16, finish: u16) -> u64
    ensures { result ≡ term_of within finish }
{
    splitmix64(u64::from(within) * 0x1_0000 + u64::from(finish))
}

// One value folded into a digest. Rules out a fold by bytes, and the product before the XOR.
#[tactic(auto, unfolding(crate::specs::Hash::fold_word))]
pub fn fold(accumulator: u64, value: u64) -> u64
    ensures { result ≡ fold_word accumulator value }
{
    wrapping_mul_u64(accumulator ^ value, 0x0000_0100_0000_01b3)
}

// Three values folded into a digest.
#[tactic(auto, unfolding(crate::specs::Hash::fold_three, crate::specs::Hash::fold_words))]
fn fold_three(accumulator: u64, x: i32, y: i32, z: i32) -> u64
    ensures { result ≡ fold_three accumulator x y z }
{
    let a = fold(accumulator, pattern(x));
    let b = fold(a, pattern(y));
    fold(b, pattern(z))
}

// The digest of the shape, before the hashes. Rules out the sizes before the chunks, and another start.
#[tactic(auto, unfolding(crate::specs::Hash::fold_three, crate::specs::Hash::fold_words, crate::specs::Hash::digest_start, crate::specs::Hash::shape_words))]
pub fn fold_shape(v: Volume) -> u64
    ensures { result ≡ fold_words digest_start (shape_words v) }
{
    let o = v.origin;
    let k = v.chunks;
    let n = v.size;
    let a = fold_three(0xcbf2_9ce4_8422_2325, o.x, o.y, o.z);
    let b = fold_three(a, k.x, k.y, k.z);
    fold_three(b, n.x, n.y, n.z)
}

// The hashes folded in order.
#[tactic(auto, unfolding(crate::specs::Hash::fold_words))]
fn fold_hashes(start: u64, hashes: &[u64]) -> u64
    ensures { result ≡ fold_words start hashes.now }
{
    hashes.iter().fold(start, |a, hash| fold(a, *hash))
}

impl Volume {
    // The whole stand in one value; refuses by 3 and 4. Rules out a digest of the hashes alone, and one of the hashes in another order.
    #[tactic(auto, unfolding(crate::specs::Refusal::answer, crate::specs::Read::digest_call, crate::specs::Hash::digest_of, crate::specs::Hash::fold_words, crate::specs::Hash::shape_words), using(crate::proofs::Refusal::accepted))]
    pub fn digest(self, hashes: &[u64]) -> Result<u64, Refusal>
        ensures { answer_of result ≡ digest_call self hashes.now }
    {
        self.with_list(1, hashes.len())?;
        Ok(fold_hashes(fold_shape(self), hashes))
    }
}
