// A program's own machine and lists: what both programs hold between calls.
ghost use Rattle.std.specs.Prelude.{◌≡◌};
ghost use Rattle.interpreter.specs.Held.{program_lists};
ghost use Rattle.interpreter.specs.Run.{after_of, run_step, turn_of};
ghost use Rattle.interpreter.specs.Script.{start_lists, step_of};
ghost use Rattle.interpreter.specs.Start.{start_machine};

use crate::decode::decode;
use crate::lists::Lists;
use crate::run::run;
use crate::start::{no_rates, start};
use crate::{Call, Machine, Reply};

// Storage for 4 chunks, rates for finishes below 64, a mask for a chunk's side, and a sheet of 4 rows.
#[derive(Drop)]
pub struct Program {
    machine: Machine,
    cells: [u16; 16384],
    hashes: [u64; 4],
    versions: [u32; 4],
    log: [u32; 4],
    last: [u64; 4],
    rates: [u32; 64],
    mask: [u16; 256],
    sheet: [u64; 12],
}

impl Program {
    // Before the first call. Rules out a list too short for 4 chunks, and one that is not fresh.
    pub fn new() -> Program
        ensures machine { result.machine ≡ start_machine }
        ensures lists { program_lists result ≡ start_lists }
    {
        Program {
            machine: start(),
            cells: [0; 16384],
            hashes: [0; 4],
            versions: [0; 4],
            log: [0; 4],
            last: [0; 4],
            rates: no_rates(),
            mask: [0; 256],
            sheet: [0; 12],
        }
    }

    // A call made on the program's own lists, and the reply to it. Rules out a list lent in another's place.
    pub fn run(&mut self, call: Call) -> Reply
        ensures { after_of (turn_of self.new.machine result) (program_lists self.new) ≡ run_step self.old.machine (program_lists self.old) call }
    {
        let mut lists = Lists {
            cells: &mut self.cells,
            hashes: &mut self.hashes,
            versions: &mut self.versions,
            log: &mut self.log,
            last: &mut self.last,
            rates: &mut self.rates,
            mask: &mut self.mask,
            sheet: &mut self.sheet,
        };
        run(&mut self.machine, call, &mut lists)
    }

    // The call that the bytes start with made so, and the reply to it. Rules out a call made of a short body.
    // Kept: decoded here again, so that `run` alone lends the lists; a method that answers them as a `Lists` has no contract that the prover covers.
    #[tactic(auto, unfolding(crate::specs::Script::step_of, crate::specs::Script::decoded_step))]
    pub fn step(&mut self, bytes: &[u8]) -> Reply
        ensures { after_of (turn_of self.new.machine result) (program_lists self.new) ≡ step_of self.old.machine (program_lists self.old) bytes.now }
    {
        match decode(bytes) {
            Some(call) => self.run(call),
            None => Reply::Broken,
        }
    }
}
