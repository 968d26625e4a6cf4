// The kinds of a form's records, and their lengths with the kind byte.

// What a record's first byte says of it.
#[derive(Clone, Copy)]
pub(crate) enum Kind {
    // The digest: the last record.
    End = 0,
    // Origin and size: the first record.
    Head = 1,
    // A cell.
    Cell = 2,
}

pub(crate) const HEAD_LENGTH: usize = 25;

pub(crate) const CELL_LENGTH: usize = 7;

pub(crate) const END_LENGTH: usize = 9;
// A form of no cells.
pub(crate) const EMPTY_LENGTH: usize = HEAD_LENGTH + END_LENGTH;
