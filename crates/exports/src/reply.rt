// Answers as C gets them: a code, 0 for accepted, and the value; a refused answer has 0 in all else.
// Kept: a struct for each type of value, and a refusal as its code, since C has no generic struct and no enum with values.
ghost use Rattle.std.specs.Prelude.{◌≡◌};
ghost use Rattle.stand.specs.Answer.{answer_of};
ghost use Rattle.stand.specs.Lent.{voxel_answer};
ghost use Rattle.exports.specs.Reply.{replied, replied_cell, replied_extent, replied_flag};

use stand::volume::Extent;
use stand::volume::refusal::Refusal;
use stand::{Cell, Voxel};

// A number.
#[repr(C)]
#[derive(Clone, Copy)]
pub struct Number {
    pub code: u32,
    pub value: u64,
}

// A cell.
#[repr(C)]
#[derive(Clone, Copy)]
pub struct Place {
    pub code: u32,
    pub cell: Cell,
}

// Three numbers along the axes.
#[repr(C)]
#[derive(Clone, Copy)]
pub struct Span {
    pub code: u32,
    pub extent: Extent,
}

impl Number {
    // The answer of a call that is refused by a code.
    pub(crate) fn refused(code: u32) -> Self
        ensures { result ≡ record { code = code; value = 0 } }
    {
        Self { code, value: 0 }
    }
}

// A number or its refusal. Rules out a code of 0 for a refusal, and a value beside one.
impl From<Result<u64, Refusal>> for Number {
    ghost from_gives = { λ a r. r ≡ replied (answer_of a) };

    fn from(a: Result<u64, Refusal>) -> Number {
        match a {
            Ok(value) => Number { code: 0, value },
            Err(r) => Number::refused(r.number()),
        }
    }
}

// Yes as 1 and no as 0, or the refusal. Rules out 0 for yes.
impl From<Result<bool, Refusal>> for Number {
    ghost from_gives = { λ a r. r ≡ replied_flag (answer_of a) };

    fn from(a: Result<bool, Refusal>) -> Number {
        Number::from(a.map(u64::from))
    }
}

// A finish as its number, or the refusal. Rules out a code for a cell that is empty.
impl From<Result<Voxel, Refusal>> for Number {
    ghost from_gives = { λ a r. r ≡ replied (voxel_answer a) };

    fn from(a: Result<Voxel, Refusal>) -> Number {
        Number::from(a.map(|v| u64::from(v.0)))
    }
}

// A cell or its refusal. Rules out a cell beside a refusal.
impl From<Result<Cell, Refusal>> for Place {
    ghost from_gives = { λ a r. r ≡ replied_cell (answer_of a) };

    fn from(a: Result<Cell, Refusal>) -> Place {
        match a {
            Ok(cell) => Place { code: 0, cell },
            Err(r) => Place {
                code: r.number(),
                cell: Cell::default(),
            },
        }
    }
}

// Three numbers or their refusal. Rules out numbers beside a refusal.
impl From<Result<Extent, Refusal>> for Span {
    ghost from_gives = { λ a r. r ≡ replied_extent (answer_of a) };

    fn from(a: Result<Extent, Refusal>) -> Span {
        match a {
            Ok(extent) => Span { code: 0, extent },
            Err(r) => Span {
                code: r.number(),
                extent: Extent::default(),
            },
        }
    }
}
