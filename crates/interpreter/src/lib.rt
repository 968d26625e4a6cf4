// The calls of the trial program (document 01, 'Trial program'), one step at a time, over storage for at most four chunks that the caller lends.
#![tactic(auto)]

use sheet::{Marks, Row};
use stand::Cell;
use stand::volume::{Extent, Volume};

pub mod decode;
mod edit;
pub mod line;
pub mod lists;
mod price;
pub mod program;
pub mod run;
pub mod start;
pub mod step;

// A call, by document 01's kinds 1 to 6.
#[derive(Clone, Copy)]
pub enum Call {
    // Origin and size.
    Open(Cell, Extent),
    Set(Cell, u16),
    // The corners of a box.
    Fill(Cell, Cell, u16),
    Refresh,
    // A finish, and cents for each of its faces.
    Rate(u16, u32),
    // Cents for each panel.
    Cut(u32),
}

// What is held beside the lists.
// Kept: `stale` is no flag of a value beside it, so that no Option takes it in; header, marks and cut hold either way.
#[derive(Clone, Copy)]
pub struct Machine {
    pub volume: Volume,
    pub marks: Marks,
    // Whether a refresh measures all.
    pub stale: bool,
    pub cut: u32,
}

// What is printed.
// Kept: one enum, since each is one of document 01's lines; a Result would be put together in each call, and taken apart where it is printed.
#[derive(Clone, Copy)]
pub enum Reply {
    Quiet,
    // The generation, and the sums of the sheet.
    Price(u64, Row),
    // Kept: document 01's number as it is printed, since the definitions' refusals are numbers.
    Refused(u32),
    Broken,
}
