// Which chunks changed since a mark.
ghost use Rattle.std.specs.Prelude.{◌≡◌, ◌-◌, ◌≤◌, IfOk, length};
ghost use Rattle.stand.specs.Answer.{answer_of, code_of};
ghost use Rattle.stand.specs.Feed.{changed_since, changed_step, feed_refusal, next_from};
ghost use Rattle.stand.specs.Lent.{given_by, step_answer};

use crate::volume::Volume;
use crate::volume::formed::Formed;
use crate::volume::refusal::Refusal;

// The change log, and the generation of each chunk's last change.
#[derive(Clone, Copy)]
pub struct Changes<'a, 'b> {
    pub log: &'a [u32],
    pub last: &'b [u64],
}

// A chunk that the walk over changed chunks gives, and the generation that gave it.
#[derive(Clone, Copy)]
pub struct Changed {
    pub chunk: u64,
    pub generation: u64,
}

impl<'a, 'b> Changes<'a, 'b> {
    // The header, known to be one that opening gives and whose changes since a mark can be told; refuses by 3, 4, 8 and 9.
    #[tactic(auto, unfolding(crate::specs::Feed::feed_refusal, crate::specs::Refusal::first))]
    pub(crate) fn check(self, v: Volume, mark: u64) -> Result<Formed, Refusal>
        ensures code { code_of result ≡ feed_refusal v (length self.entry.log.now) (length self.entry.last.now) mark }
        ensures same { IfOk result (λ f. f.volume ≡ v) }
    {
        let header = v.formed()?;
        let n = header.chunk_total();
        if self.log.len() as u64 != n || self.last.len() as u64 != n {
            return Err(Refusal::WrongLength);
        }
        if v.generation < mark {
            return Err(Refusal::MarkAhead);
        }
        let too_old = n < v.generation - mark;
        if too_old {
            return Err(Refusal::MarkTooOld);
        }
        Ok(header)
    }

    // The first chunk that the generations after `next` give.
    // Kept: sheet's `given` asks the same of one generation; one for both would be open and need a log of an entry at least, and no open function has a requires.
    #[tactic(auto, unfolding(crate::specs::Feed::logged), using(crate::proofs::Feed::found, crate::proofs::Feed::passed, crate::proofs::Feed::ended))]
    fn next_changed(self, next: u64, generation: u64) -> Option<Changed>
        requires { (1 ≤ length self.log.now) × (length self.last.now ≡ length self.log.now) }
        ensures { given_by result ≡ next_from (length self.entry.log.now) self.entry.log.now self.entry.last.now next (generation - next) }
    {
        let n = self.log.len() as u64;
        for g in next..generation {
            let slot = (g % n) as usize;
            let chunk = self.log[slot] as usize;
            if chunk < self.last.len() && self.last[chunk] == g + 1 {
                return Some(Changed {
                    chunk: chunk as u64,
                    generation: g + 1,
                });
            }
        }
        None
    }
}

impl Volume {
    // Whether the chunks changed since a mark can be told: where their walk starts; refuses by 3, 4, 8 and 9. Rules out "too old" for a lag equal to the chunk count, and a mark ahead.
    // Kept: this, `changed_step` and `walk_changed` are public calls of their own, each one line after the same `check`.
    #[tactic(auto, unfolding(crate::specs::Refusal::answer, crate::specs::Feed::changed_since), using(crate::proofs::Refusal::accepted))]
    pub fn changed_since(self, changes: Changes<'_, '_>, mark: u64) -> Result<u64, Refusal>
        ensures { answer_of result ≡ changed_since self changes.entry.log.now changes.entry.last.now mark }
    {
        changes.check(self, mark)?;
        Ok(mark)
    }

    // The next chunk of that walk, if there is one, and the generation to go on from; refuses by 3, 4, 8 and 9. Rules out an end before the first chunk, and a chunk given twice.
    #[tactic(auto, unfolding(crate::specs::Refusal::answer, crate::specs::Feed::changed_step), using(crate::proofs::Refusal::accepted, crate::proofs::Feed::fed, crate::proofs::Feed::fed_some))]
    pub fn changed_step(
        self,
        changes: Changes<'_, '_>,
        next: u64,
    ) -> Result<Option<Changed>, Refusal>
        ensures { step_answer result ≡ changed_step self changes.entry.log.now changes.entry.last.now next }
    {
        changes.check(self, next)?;
        Ok(changes.next_changed(next, self.generation))
    }
}
