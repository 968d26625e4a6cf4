// Which chunks a refresh measures: those changed since the mark, and those that share a face with one, each at its turn.
ghost use Rattle.std.specs.Prelude.{◌≡◌, ◌≤◌};
ghost use Rattle.std.specs.Iterator.{at_most};
ghost use Rattle.sheet.specs.Picks.{Given};
ghost use Rattle.sheet.specs.Since.{count_in, left_in, most_in};

use crate::picks::Picks;
use crate::since::Since;

// The generation whose turn it is, and its next step.
#[derive(Clone, Copy)]
pub(crate) struct Due<'a, 'b> {
    since: Since<'a, 'b>,
    at: u64,
    step: usize,
    ghost from: { since.mark ≤ at },
    ghost upto: { at ≤ since.header.volume.generation },
    ghost steps: { step ≤ 7 },
}

impl<'a, 'b> Due<'a, 'b> {
    // From the mark on.
    pub(crate) fn of(since: Since<'a, 'b>) -> Due<'a, 'b>
        ensures { (result.since ≡ since.entry) × (result.at ≡ since.entry.mark) × (result.step ≡ 0) }
    {
        Due {
            since,
            at: since.mark,
            step: 0,
        }
    }
}

impl Iterator for Due<'_, '_> {
    type Item = usize;

    ghost next_gives = { λ d r e. Given (count_in d.since) (left_in d.since d.at d.step) (left_in e.since e.at e.step) r × (count_in e.since ≡ count_in d.since) };

    ghost remaining = { λ d. at_most (most_in d.since d.at d.step) };

    // Inlined always: a refresh with nothing changed asks twice, and executes a fifth more where each is a call.
    #[inline(always)]
    fn next(&mut self) -> Option<usize> {
        let upto = self.since.header.volume.generation;
        // Kept: `while`, since where the walk stands outlives the call.
        while self.at < upto {
            if let Some(c) = self.since.given(self.at) {
                if let Some(pick) = self.since.pick(self.at, c, self.step) {
                    self.step = pick.next;
                    return Some(pick.chunk);
                }
            }
            self.at += 1;
            self.step = 0;
        }
        None
    }
}

impl Picks for Due<'_, '_> {
    ghost count = { λ d. count_in d.since };

    ghost left = { λ d. left_in d.since d.at d.step };

    ghost gives = { λ s r t h. h };

    ghost goes_on = { λ s. tt };

    ghost ends = { λ s. tt };
}
