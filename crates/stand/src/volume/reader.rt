// A reader over the change log and the last changes.
ghost use Rattle.std.specs.Prelude.{◌≡◌, length, slice_set};
ghost use Rattle.stand.specs.Answer.{answer_of};
ghost use Rattle.stand.specs.Feed.{changed_step, feed_refusal, next_after, sections_since, walk_call, written_from};
ghost use Rattle.stand.specs.Lent.{step_answer};

use crate::volume::Volume;
use crate::volume::feed::{Changed, Changes};
use crate::volume::refusal::Refusal;

// The two lent lists, and the generation to go on from.
// Kept: document 01 names the form, two slice references and a next generation.
#[derive(Clone, Copy)]
pub struct ChangedChunks<'a, 'b> {
    pub log: &'a [u32],
    pub last: &'b [u64],
    pub next: u64,
}

// What a step gives, and the reader moved on: where the step gives no chunk, the reader stays where it stood.
#[derive(Clone, Copy)]
pub struct Stepped<'a, 'b> {
    pub step: Result<Option<Changed>, Refusal>,
    pub reader: ChangedChunks<'a, 'b>,
}

impl<'a, 'b> ChangedChunks<'a, 'b> {
    // A reader from a mark on; a step refuses what it cannot read. Rules out another list, and another mark.
    // Kept: the lists one by one and a mark, since document 01 gives the reader two slices and a generation.
    pub fn make(log: &'a [u32], last: &'b [u64], mark: u64) -> ChangedChunks<'a, 'b>
        ensures log { result.log ≡ log.entry }
        ensures last { result.last ≡ last.entry }
        ensures next { result.next ≡ mark }
    {
        ChangedChunks {
            log,
            last,
            next: mark,
        }
    }

    // The next changed chunk, and the reader after it; refuses by 3, 4, 8 and 9. Rules out an end before the first chunk, and a reader that stays where it was.
    pub fn step(self, volume: Volume) -> Stepped<'a, 'b>
        ensures step { step_answer result.step ≡ changed_step volume self.entry.log.now self.entry.last.now self.entry.next }
        ensures log { result.reader.log ≡ self.entry.log }
        ensures last { result.reader.last ≡ self.entry.last }
        ensures next { result.reader.next ≡ next_after (step_answer result.step) self.entry.next }
    {
        let changes = Changes {
            log: self.log,
            last: self.last,
        };
        let step = volume.changed_step(changes, self.next);
        let next = match step {
            Ok(Some(given)) => given.generation,
            _ => self.next,
        };
        Stepped {
            step,
            reader: ChangedChunks {
                log: self.log,
                last: self.last,
                next,
            },
        }
    }
}

// A value in its place of a list, if the list has it.
#[tactic(auto, using(crate::proofs::Walking::set_past))]
fn put_in(out: &mut [u64], at: usize, value: u64)
    ensures { out.new ≡ slice_set out.old at value }
{
    if at < out.len() {
        out[at] = value;
    }
}

// How many chunks a reader from a mark gives, step after step to the end; they are written to a list as far as it has room.
// Kept: a loop, since each step answers the reader moved on; and `unwrap_or`, since a nested pattern tells the proof nothing of the end.
// Kept: a list with its count beside it, since the caller lends the list and the count goes on past its end.
#[tactic(auto, using(crate::proofs::Walking::sets_out, crate::proofs::Walking::step_below, crate::proofs::Walking::step_nearer))]
fn collect(volume: Volume, changes: Changes<'_, '_>, mark: u64, out: &mut [u64]) -> usize
    requires { feed_refusal volume (length changes.log.now) (length changes.last.now) mark ≡ 0 }
    ensures count { result ≡ length (sections_since volume changes.entry.log.now changes.entry.last.now mark) }
    ensures list { out.new ≡ written_from 0 (sections_since volume changes.entry.log.now changes.entry.last.now mark) out.old }
{
    let mut reader = ChangedChunks::make(changes.log, changes.last, mark);
    let mut at: usize = 0;
    loop {
        let stepped = reader.step(volume);
        let Some(given) = stepped.step.unwrap_or(None) else {
            return at;
        };
        put_in(out, at, given.chunk);
        at += 1;
        reader = stepped.reader;
    }
}

impl Volume {
    // How many chunks changed since a mark, written in order to a list as far as it has room; refuses by 3, 4, 8 and 9. Rules out a chunk left out or given twice, and a refused call that writes.
    #[tactic(auto, unfolding(crate::specs::Feed::walk_call, crate::specs::Feed::walked), using(crate::proofs::Walking::walk_exits, crate::proofs::Walking::walked_so))]
    pub fn walk_changed(
        self,
        changes: Changes<'_, '_>,
        mark: u64,
        out: &mut [u64],
    ) -> Result<u64, Refusal>
        ensures { (answer_of result, out.new) ≡ walk_call self changes.entry.log.now changes.entry.last.now mark out.old }
    {
        changes.check(self, mark)?;
        Ok(collect(self, changes, mark, out) as u64)
    }
}
