// Before the first call.
ghost use Rattle.std.specs.Prelude.{◌≡◌, replicate};
ghost use Rattle.interpreter.specs.Start.{start_machine, unset};

use crate::Machine;
use sheet::Marks;
use stand::volume::Volume;

// The rate of a finish that has none: above the limit.
// Kept: a number, since the sheet takes its rates as a list of numbers, as C lends them, and refuses this one.
const UNSET: u32 = u32::MAX;

// No stand, and cut 0. Rules out a stand that a set could change, and a first refresh that measures nothing.
// Kept: a header of zeros, which the stand's calls refuse by 3; with an Option each call here would test for it and answer that 3 by itself.
pub fn start() -> Machine
    ensures { result ≡ start_machine }
{
    Machine {
        volume: Volume::default(),
        marks: Marks { sheet: 0 },
        stale: true,
        cut: 0,
    }
}

// The rates by finish, none set. Rules out a rate that a refresh would take, and a finish up to 63 with no place in the list.
pub fn no_rates() -> [u32; 64]
    ensures { result ≡ replicate 64 unset }
{
    [UNSET; 64]
}
