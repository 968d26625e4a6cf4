// The turns of the generations since a mark: which chunks each of them picks.
ghost use Rattle.std.specs.Prelude.{◌≡◌, ◌<◌, ◌≤◌, ◌-◌, IfOk, Some, length, ltb};
ghost use Rattle.stand.specs.Answer.{code_of};
ghost use Rattle.sheet.specs.Since.{changed_in, count_in, due_in, given_in, left_in, step_in, turn_in};
ghost use Rattle.sheet.specs.Turn.{FirstPick, since_code, some_so};

use crate::since::Since;
use crate::step::step_to;
use stand::volume::feed::Changes;
use stand::volume::formed::Formed;
use stand::volume::refusal::Refusal;

// Steps from a chunk: one to each side, and none.
const STEPS: usize = 7;

// A chunk that a turn picks, and the step to go on from.
#[derive(Clone, Copy)]
pub(crate) struct Pick {
    pub chunk: usize,
    pub next: usize,
}

impl<'a, 'b> Since<'a, 'b> {
    // What changed since a mark; refuses by 4 and 8. Rules out 8 for a mark equal to the generation.
    #[tactic(auto, unfolding(stand::specs::Refusal::first))]
    pub(crate) fn of(
        header: Formed,
        changes: Changes<'a, 'b>,
        mark: u64,
    ) -> Result<Since<'a, 'b>, Refusal>
        ensures code { code_of result ≡ since_code header.volume (length changes.entry.log.now) (length changes.entry.last.now) mark }
        ensures same { IfOk result (λ s. (s.header ≡ header) × (s.changes ≡ changes.entry) × (s.mark ≡ mark)) }
    {
        let n = header.chunk_total() as usize;
        if changes.log.len() != n || changes.last.len() != n {
            return Err(Refusal::WrongLength);
        }
        if header.volume.generation < mark {
            return Err(Refusal::MarkAhead);
        }
        Ok(Since {
            header,
            changes,
            mark,
        })
    }

    // Whether the mark lags by more than the chunk count.
    pub(crate) fn is_late(self) -> bool
        ensures { result ≡ ltb (count_in self.entry) (self.entry.header.volume.generation - self.entry.mark) }
    {
        self.header.chunk_total() < self.header.volume.generation - self.mark
    }

    // Chunk c is given by the walk over generations mark + 1 to upto: by its last change, with no walk.
    // Kept: the return goes before the slot, which needs `at` not 0; one `&&` chain would have to name the slot within.
    #[tactic(auto, unfolding(stand::specs::Feed::changed_of, stand::specs::Feed::logged))]
    fn changed(self, upto: u64, c: usize) -> bool
        requires { c < count_in self }
        ensures { result ≡ changed_in self.entry upto c }
    {
        let Changes { log, last } = self.changes;
        let at = last[c];
        if at <= self.mark || upto < at {
            return false;
        }
        let slot = ((at - 1) % log.len() as u64) as usize;
        log[slot] as usize == c
    }

    // Step s from chunk t leads to one that is given by that walk.
    // Kept: that a chunk is below the count is asked, in `changed`, here, in `is_due` and in `turn`: a type for it would wrap each number that the log and `step_to` answer.
    fn leads(self, upto: u64, t: usize, s: usize) -> bool
        requires { t < count_in self }
        ensures { result ≡ some_so (changed_in self.entry upto) (step_in self.entry t s) }
    {
        match step_to(self.header, t, s) {
            Some(d) => self.changed(upto, d),
            None => false,
        }
    }

    // Chunk t, or one that shares a face with it, is given by that walk.
    fn is_due(self, upto: u64, t: usize) -> bool
        requires { (self.mark ≤ upto) × (t < count_in self) }
        ensures { result ≡ due_in self.entry upto t }
    {
        (0..STEPS).any(|s| self.leads(upto, t, s))
    }

    // The chunk that generation j + 1 gives, if it does.
    // Kept: not one with `changed`, nor with stand's `next_changed`: this asks which chunk a generation gives, that whether a chunk is given by any; a shared one would be open and have a requires.
    #[tactic(auto, unfolding(crate::specs::Turn::given_of, stand::specs::Feed::given_at, stand::specs::Feed::logged))]
    pub(crate) fn given(self, j: u64) -> Option<usize>
        requires { j < self.header.volume.generation }
        ensures { result ≡ given_in self.entry j }
    {
        let Changes { log, last } = self.changes;
        let c = log[(j % log.len() as u64) as usize] as usize;
        if last.get(c).copied() == Some(j + 1) {
            Some(c)
        } else {
            None
        }
    }

    // The chunk that step s from c picks at generation j + 1, which gives c: one not due by the generations before.
    pub(crate) fn turn(self, j: u64, c: usize, s: usize) -> Option<usize>
        requires { (self.mark ≤ j) × (c < count_in self) }
        ensures { result ≡ turn_in self.entry j c s }
    {
        let t = step_to(self.header, c, s)?;
        if self.is_due(j, t) { None } else { Some(t) }
    }

    // The first pick of that turn from step `from` on.
    pub(crate) fn pick(self, j: u64, c: usize, from: usize) -> Option<Pick>
        requires turn { (self.mark ≤ j) × (j < self.header.volume.generation) }
        requires gives { given_in self j ≡ Some c }
        requires steps { from ≤ 7 }
        ensures { FirstPick (count_in self.entry) (left_in self.entry j) from result }
    {
        for s in from..STEPS {
            if let Some(chunk) = self.turn(j, c, s) {
                return Some(Pick { chunk, next: s + 1 });
            }
        }
        None
    }
}
