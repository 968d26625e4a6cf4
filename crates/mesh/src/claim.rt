// The greedy claim: rectangles of one number, taken out of a mask.
ghost use Rattle.std.specs.Prelude.{◌≡◌, ◌+◌, ◌<◌, ◌≤◌, not, ◌==◌, bit_or, length, position, take};
ghost use Rattle.std.specs.List.{fold};
ghost use Rattle.mesh.specs.Scan.{clear_run, run_len};
ghost use Rattle.mesh.specs.Claims.{ClaimPost, ClaimPre, NextSeen, RowsPost, RowsPre, TakePost};

// A rectangle of a mask: its lowest slot, its slots along first and second, and what they held.
#[derive(Clone, Copy)]
pub struct Rect {
    pub u: usize,
    pub v: usize,
    pub run: usize,
    pub rows: usize,
    pub value: u16,
}

// The slots from `at` on that hold what `at` does, of the first `most`: they become 0, and the answer is their count.
// One loop does both, since clearing alone would become a call for each panel.
// Kept: the mask and a place in it, here and below, since C lends it flat and longer than what is counted; a part in its place would be cut at each call.
fn take_run(mask: &mut [u16], at: usize, most: usize) -> usize
    requires { (0 < most) × (at + most ≤ length mask.old) }
    ensures { TakePost mask.old mask.new at most result }
{
    let x = mask[at];
    mask[at] = 0;
    for n in 1..most {
        if mask[at + n] != x {
            return n;
        }
        mask[at + n] = 0;
    }
    most
}

// The first slot that does not hold `x`.
fn first_other(slots: &[u16], x: u16) -> Option<usize>
    ensures { result ≡ position (λ y. not (y == x)) slots.now }
{
    slots.iter().position(|slot| *slot != x)
}

// How many slots from `at` on hold `x`, of the first `most`.
// Kept: not one with `take_run`, which clears as it counts: a row further on is cleared only when all of it holds `x`.
fn run_len(mask: &[u16], at: usize, most: usize, x: u16) -> usize
    requires { at + most ≤ length mask.now }
    ensures { result ≡ run_len mask.now at most x }
{
    first_other(&mask[at..at + most], x).unwrap_or(most)
}

// Zero in the `run` slots from `at` on.
// Kept: a loop and not `fill`, since a checkered section, laid and listed, takes 104 µs with it and 121 with `fill`.
fn clear_run(mask: &mut [u16], at: usize, run: usize)
    requires { at + run ≤ length mask.old }
    ensures { mask.new ≡ clear_run mask.old at run }
{
    for n in 0..run {
        mask[at + n] = 0;
    }
}

// How many rows from `at` on hold `x` in all of the run, of the first `most`: they become 0.
// Kept: rows of `w` slots in a flat mask, here and in `claim_at`, as the C interface lends it.
fn take_rows(mask: &mut [u16], w: usize, at: usize, run: usize, most: usize, x: u16) -> usize
    requires { RowsPre (length mask.old) w at run most }
    ensures { RowsPost mask.old mask.new w at run most x result }
{
    for n in 0..most {
        let row = at + n * w;
        if run_len(mask, row, run, x) != run {
            return n;
        }
        clear_run(mask, row, run);
    }
    most
}

// Takes the rectangle whose lowest slot (u, v) is at `at`, and not 0. Before rows are counted the slot one row on is compared: in a random
// or checkered section it mostly holds another number.
pub(crate) fn claim_at(mask: &mut [u16], w: usize, h: usize, u: usize, v: usize, at: usize) -> Rect
    requires { ClaimPre mask.old w h u v at }
    ensures { ClaimPost mask.old mask.new w h u v result }
{
    let value = mask[at];
    let run = take_run(mask, at, w - u);
    let most = h - v - 1;
    let row = Rect {
        u,
        v,
        run,
        rows: 1,
        value,
    };
    if most == 0 || mask[at + w] != value {
        return row;
    }
    let more = take_rows(mask, w, at + w, run, most, value);
    Rect {
        rows: more + 1,
        ..row
    }
}

// The bits that any of the first `n` slots has.
// Kept: bits that are or-ed without a branch, here and where planes are filled; 0 is no sign beside them, and a flag would be the same test made for each slot.
fn any_of(mask: &[u16], n: usize) -> u16
    requires { n ≤ length mask.now }
    ensures { result ≡ fold bit_or 0 (take n mask.now) }
{
    mask[..n].iter().fold(0, |any, slot| any | slot)
}

// The first place from `from` on, below `n`, whose slot is not 0; else `n`, or `from` where that is no less. From slot 0 it first asks
// in one pass without a branch whether any slot is not 0: most slices of a sheet show nothing.
// Kept: `n` for none: an Option would move the test of `n <= q` from `claim` to here, and save none.
pub(crate) fn next_seen(mask: &[u16], from: usize, n: usize) -> usize
    requires { n ≤ length mask.now }
    ensures { NextSeen mask.now from n result }
{
    if n <= from {
        return from;
    }
    if from == 0 && any_of(mask, n) == 0 {
        return n;
    }
    from + run_len(mask, from, n - from, 0)
}
