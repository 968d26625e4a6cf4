// Replies as answers: what was accepted, or the refusal.
// Kept: a code of 0 is "accepted" and `given` a flag here and where the calls are made, since the replies are those of the C interface.
use crate::answer::Answer;
use exports::prices::{Marked, Sums};
use exports::reply::{Number, Place, Span};
use exports::slices::Sliced;

pub(crate) fn said(code: u32, accepted: Answer) -> Answer {
    if code == 0 {
        return accepted;
    }
    Answer::refused(code)
}

impl From<Number> for Answer {
    fn from(r: Number) -> Answer {
        said(r.code, Answer::of(r.value))
    }
}

impl From<Place> for Answer {
    fn from(r: Place) -> Answer {
        said(r.code, Answer::of(r.cell))
    }
}

impl From<Span> for Answer {
    fn from(r: Span) -> Answer {
        said(r.code, Answer::of(r.extent))
    }
}

impl From<Marked> for Answer {
    fn from(r: Marked) -> Answer {
        said(r.code, Answer::of(r.mark))
    }
}

impl From<Sums> for Answer {
    fn from(r: Sums) -> Answer {
        said(r.code, Answer::of(r.panels).and(r.faces).and(r.cents))
    }
}

// The lowest cell of a slice, and its slots along first and second.
impl From<Sliced> for Answer {
    fn from(r: Sliced) -> Answer {
        let s = r.slice;
        said(r.code, Answer::of(s.cell).and(s.width).and(s.height))
    }
}
