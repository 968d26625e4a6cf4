// The chunks that a measuring call goes over.
ghost use Rattle.std.specs.Prelude.{◌≡◌, ◌≤◌, ◌-◌, ℕ, Bool, Option, nat_le};
ghost use Rattle.std.specs.Iterator.{IsFinite, at_most};
ghost use Rattle.stand.specs.Shape.{sections, shape_of};
ghost use Rattle.sheet.specs.Picks.{Given};

use stand::volume::formed::Formed;

// Chunks of a stand, one at a time.
pub(crate) trait Picks: Iterator<Item = usize> + Copy {
    // How many chunks the stand has.
    ghost count: { Self → ℕ };

    // The chunks still to come.
    ghost left: { Self → ℕ → Bool };

    // A step gives one of them, or there is none.
    ghost gives: { (s : Self) (r : Option ℕ) (t : Self) → Self.next_gives s r t → Given (count s) (left s) (left t) r × (count t ≡ count s) };

    // It may be asked again until then, and ends.
    ghost goes_on: { (s : Self) → Self.can_next s };

    ghost ends: { (s : Self) → IsFinite (Self.remaining s) };
}

// All chunks, one after the other.
// Kept: a range of its own, since a call goes over its chunks twice and std's `Range` is no `Copy`.
#[derive(Clone, Copy)]
pub(crate) struct Every {
    pub next: usize,
    pub count: usize,
    ghost within: { next ≤ count },
}

impl Every {
    // Those of a header.
    pub(crate) fn of(header: Formed) -> Every
        ensures { (result.next ≡ 0) × (result.count ≡ sections (shape_of header.volume)) }
    {
        Every {
            next: 0,
            count: header.chunk_total() as usize,
        }
    }
}

impl Iterator for Every {
    type Item = usize;

    ghost next_gives = { λ s r t. Given s.count (nat_le s.next) (nat_le t.next) r × (t.count ≡ s.count) };

    ghost remaining = { λ s. at_most (s.count - s.next) };

    fn next(&mut self) -> Option<usize> {
        let chunk = self.next;
        if chunk == self.count {
            return None;
        }
        self.next = chunk + 1;
        Some(chunk)
    }
}

impl Picks for Every {
    ghost count = { λ s. s.count };

    ghost left = { λ s. nat_le s.next };

    ghost gives = { λ s r t h. h };

    ghost goes_on = { λ s. tt };

    ghost ends = { λ s. tt };
}
