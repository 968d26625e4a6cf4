// What changed since a mark.
ghost use Rattle.std.specs.Prelude.{◌≡◌, ◌≤◌, length};
ghost use Rattle.stand.specs.Shape.{sections, shape_of};

use stand::volume::feed::Changes;
use stand::volume::formed::Formed;

// A header with the lists that say what changed, and a mark that is not ahead.
#[derive(Clone, Copy)]
pub(crate) struct Since<'a, 'b> {
    pub header: Formed,
    pub changes: Changes<'a, 'b>,
    pub mark: u64,
    ghost log: { length changes.log.now ≡ sections (shape_of header.volume) },
    ghost last: { length changes.last.now ≡ sections (shape_of header.volume) },
    ghost behind: { mark ≤ header.volume.generation },
}
