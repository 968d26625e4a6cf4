// The fields of a call: each is the line's next word, or three of them.
ghost use Rattle.std.specs.Prelude.{◌≡◌, ◌≤◌, IfOk};
ghost use Rattle.quote.specs.Fields.{left, lent_left, word, amount, finish, cents, coordinate, cell};

use crate::fault::Fault;
use crate::number::{read_amount, read_coordinate};
use crate::words::Words;
use stand::Cell;

impl<'a> Words<'a> {
    // The next word, which must be there.
    #[tactic(auto, unfolding(crate::specs::Fields::word))]
    fn word(&mut self) -> Result<&'a [u8], Fault>
        ensures { lent_left result self.new.rest.now ≡ word self.old.rest.now }
    {
        self.next_word().ok_or(Fault::MissingNumber)
    }

    // A number up to a limit.
    #[tactic(auto, unfolding(crate::specs::Fields::amount))]
    fn amount(&mut self, limit: u32) -> Result<u32, Fault>
        ensures amount { left result self.new.rest.now ≡ amount limit self.old.rest.now }
        ensures within { IfOk result (λ n. n ≤ limit) }
    {
        read_amount(self.word()?, limit)
    }

    // A finish. Rules out a number above the most of a u16, cut down to fit.
    pub(crate) fn finish(&mut self) -> Result<u16, Fault>
        ensures { left result self.new.rest.now ≡ finish self.old.rest.now }
    {
        Ok(self.amount(u32::from(u16::MAX))? as u16)
    }

    // Cents for a face or a panel.
    pub(crate) fn cents(&mut self) -> Result<u32, Fault>
        ensures { left result self.new.rest.now ≡ cents self.old.rest.now }
    {
        self.amount(u32::MAX)
    }

    #[tactic(auto, unfolding(crate::specs::Fields::coordinate))]
    fn coordinate(&mut self) -> Result<i32, Fault>
        ensures { left result self.new.rest.now ≡ coordinate self.old.rest.now }
    {
        read_coordinate(self.word()?)
    }

    // Three coordinates. Rules out two of them swapped, and a later fault given for the first.
    #[tactic(auto, unfolding(crate::specs::Fields::cell))]
    pub(crate) fn cell(&mut self) -> Result<Cell, Fault>
        ensures { left result self.new.rest.now ≡ cell self.old.rest.now }
    {
        let x = self.coordinate()?;
        let y = self.coordinate()?;
        let z = self.coordinate()?;
        Ok(Cell { x, y, z })
    }
}
