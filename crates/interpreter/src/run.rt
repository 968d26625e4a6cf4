// One call.
ghost use Rattle.std.specs.Prelude.{◌≡◌};
ghost use Rattle.interpreter.specs.Held.{Kept, lists_held};
ghost use Rattle.interpreter.specs.Run.{after_of, run_step, turn_of};

use crate::edit::{Edit, make_edit};
use crate::lists::Lists;
use crate::price::{cut, quote, rate};
use crate::{Call, Machine, Reply};

// A call made on the stand, and the reply to it. Rules out a refused opening that drops the old stand, and a refresh after a new rate that keeps old rows.
// Kept: a match over the enum of calls, each with its own fields; closures would be no plainer than these six lines.
#[tactic(auto, unfolding(crate::specs::Run::run_step))]
pub fn run(m: &mut Machine, call: Call, lists: &mut Lists) -> Reply
    ensures outcome { after_of (turn_of m.new result) (lists_held lists.new) ≡ run_step m.old (lists_held lists.old) call }
    ensures kept { Kept lists.old lists.new }
{
    match call {
        Call::Open(origin, size) => make_edit(m, lists, Edit::Open(origin, size)),
        Call::Set(cell, finish) => make_edit(m, lists, Edit::Set(cell, finish)),
        Call::Fill(from, to, finish) => make_edit(m, lists, Edit::Fill(from, to, finish)),
        Call::Refresh => quote(m, lists),
        Call::Rate(finish, cents) => rate(m, &mut *lists.rates, finish, cents),
        Call::Cut(cents) => cut(m, cents),
    }
}
