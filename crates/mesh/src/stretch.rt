// Stretches of a row, at most sixteen slots (a section's row has no more): for each slot the first one from it on that is not 0. It is
// found without a branch on a slot, since in a random section a slot's test goes either way.
ghost use Rattle.std.specs.Prelude.{◌≡◌, ◌+◌, ◌<◌, ◌≤◌, length};
ghost use Rattle.mesh.specs.Stretch.{SeenFrom, SeenList, StretchIn};

// Where the stretch from slot u of a row of w slots ends.
pub(crate) fn stretch_end(u: usize, w: usize) -> usize
    requires { u < w }
    ensures { (u < result) × (result ≤ w) × (result ≤ u + 16) }
{
    u + (w - u).min(16)
}

// Lists for each slot of a stretch the first one from it on that is not 0, or the stretch's end. Rules out passing over a slot that
// is not 0; it does not say that the listed slot is not 0, since no caller needs that.
// Kept: the stretch's end stands for none, so that a slot is listed without a branch; of Options each reading would say `unwrap_or(to)`. From and to beside sixteen places, since there is no heap.
pub(crate) fn list_seen(seen: &mut [usize; 16], mask: &[u16], row: usize, from: usize, to: usize)
    requires { StretchIn (length mask.now) row from to }
    ensures { SeenList mask.now row from from to seen.new }
{
    let mut nearest = to;
    for u in (from..to).rev() {
        let x = mask[row + u];
        let blank = x == 0;
        nearest = if blank { nearest } else { u };
        seen[u - from] = nearest;
    }
}

// What is listed for slot u; from the stretch's end on u itself.
// Kept: the test and not `get`, which would find what an earlier stretch left past `to`.
pub(crate) fn seen_from(seen: &[usize; 16], from: usize, to: usize, u: usize) -> usize
    requires { (from ≤ u) × (to ≤ from + 16) }
    ensures { SeenFrom seen.now from to u result }
{
    if to <= u {
        return u;
    }
    seen[u - from]
}
