// The lists of the program, of which each call is lent the first chunks.
ghost use Rattle.std.specs.Prelude.{◌≡◌};
ghost use Rattle.stand.specs.Answer.{answer_of};
ghost use Rattle.interpreter.specs.Held.{lengths_held};
ghost use Rattle.interpreter.specs.Room.{Room, chunks_in, chunks_of, lent_of};

use stand::volume::Volume;
use stand::volume::refusal::Refusal;

// The most chunks of a stand.
const MOST: u64 = 4;

// A stand's five lists, the rates by finish, a mask and a sheet.
#[derive(Drop)]
pub struct Lists<'a> {
    pub cells: &'a mut [u16],
    pub hashes: &'a mut [u64],
    pub versions: &'a mut [u32],
    pub log: &'a mut [u32],
    pub last: &'a mut [u64],
    pub rates: &'a mut [u32],
    pub mask: &'a mut [u16],
    pub sheet: &'a mut [u64],
}

// The chunks of a stand, none before the first opening.
// Kept: 0 for none, here and in the next three: the stand's call is then lent empty lists and refuses by itself; an Option would be turned into this 0 by each caller.
#[tactic(auto, unfolding(crate::specs::Room::chunks_of))]
pub(crate) fn chunks_of(v: Volume) -> u64
    ensures { result ≡ chunks_of v }
{
    v.chunk_count().unwrap_or(0)
}

// The chunks of a stand just opened, none where the opening is refused.
pub(crate) fn chunks_in(answer: Result<Volume, Refusal>) -> u64
    ensures { result ≡ chunks_in (answer_of answer) }
{
    answer.map_or(0, chunks_of)
}

impl<'a> Lists<'a> {
    // n chunks where they are at most four and every list has room for them; else none, and the call is refused.
    #[tactic(auto, unfolding(crate::specs::Room::lent_of, crate::specs::Room::room_for))]
    pub(crate) fn lent(&self, n: u64) -> usize
        ensures lent { result ≡ lent_of n (lengths_held self.now) }
        ensures room { Room result (lengths_held self.now) }
    {
        if MOST < n {
            return 0;
        }
        let k = n as usize;
        let fits = k * 4096 <= self.cells.len()
            && k <= self.hashes.len()
            && k <= self.versions.len()
            && k <= self.log.len()
            && k <= self.last.len()
            && k * 3 <= self.sheet.len();
        if fits { k } else { 0 }
    }

    // The chunks of a stand that a call on it is lent.
    pub(crate) fn held(&self, v: Volume) -> usize
        ensures lent { result ≡ lent_of (chunks_of v) (lengths_held self.now) }
        ensures room { Room result (lengths_held self.now) }
    {
        self.lent(chunks_of(v))
    }
}
