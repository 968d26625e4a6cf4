// What is kept from line to line.
use crate::list::List;
use exports::slices::SideSlice;
use stand::Cell;
use stand::volume::Volume;
use std::fmt;

// The most sections that storage is kept for.
pub(crate) const SECTIONS: usize = 4;

pub(crate) const CELLS: usize = 16384;

pub(crate) const SLOTS: usize = 1024;

pub(crate) const NUMBERS: usize = 400;

pub(crate) const RATES: usize = 64;

pub(crate) const ROWS: usize = 12;

pub(crate) const BYTES: usize = 4096;

// Each list has an entry for each section, but for the cells.
// Kept: lists side by side, since the C interface takes them one by one.
#[derive(Drop)]
pub(crate) struct Storage {
    pub cells: List<u16, CELLS>,
    pub hashes: List<u64, SECTIONS>,
    pub versions: List<u32, SECTIONS>,
    pub log: List<u32, SECTIONS>,
    pub last: List<u64, SECTIONS>,
}

// Calls made, answers compared, and those that differ.
#[derive(Clone, Copy, Default)]
pub(crate) struct Tally {
    pub calls: u64,
    pub compared: u64,
    pub differ: u64,
}

impl fmt::Display for Tally {
    fn fmt<W: fmt::Write>(&self, f: &mut fmt::Formatter<W>) -> fmt::Result {
        write!(
            f,
            "{} calls, {} answers compared, {} differ",
            self.calls, self.compared, self.differ
        )
    }
}

// Calls are lent the entries of its lists.
#[derive(Drop)]
pub(crate) struct Stage {
    pub volume: Volume,
    pub storage: Storage,
    pub mask: List<u16, SLOTS>,
    pub list: List<i32, NUMBERS>,
    pub slice: SideSlice,
    pub rates: List<u32, RATES>,
    pub cut: u32,
    pub sheet: List<u64, ROWS>,
    pub mark: u64,
    pub form: List<u8, BYTES>,
    pub tally: Tally,
}

impl Storage {
    // For no section.
    fn none() -> Storage {
        Storage {
            cells: List::of(0, 0),
            hashes: List::of(0, 0),
            versions: List::of(0, 0),
            log: List::of(0, 0),
            last: List::of(0, 0),
        }
    }

    // New lengths, in order.
    pub(crate) fn resize(&mut self, lengths: [usize; 5]) {
        let [cells, hashes, versions, log, last] = lengths;
        self.cells.resize(cells);
        self.hashes.resize(hashes);
        self.versions.resize(versions);
        self.log.resize(log);
        self.last.resize(last);
    }
}

impl Stage {
    // Before the first line: a header of zeros is none that opening gives, and refused by 3.
    pub(crate) fn first() -> Stage {
        Stage {
            volume: Volume::default(),
            storage: Storage::none(),
            mask: List::of(0, SLOTS),
            list: List::of(0, NUMBERS),
            slice: SideSlice {
                cell: Cell::default(),
                side: 0,
                width: 0,
                height: 0,
            },
            rates: List::of(u32::MAX, RATES),
            cut: 0,
            sheet: List::of(0, 0),
            mark: 0,
            form: List::of(0, 0),
            tally: Tally::default(),
        }
    }

    // Storage and a sheet for as many sections.
    pub(crate) fn lend(&mut self, sections: usize) {
        let n = sections.min(SECTIONS);
        self.storage.resize([n * 4096, n, n, n, n]);
        self.sheet.resize(n * 3);
    }
}
