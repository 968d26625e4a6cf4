// One step of the trial program.
ghost use Rattle.std.specs.Prelude.{◌≡◌};
ghost use Rattle.interpreter.specs.Held.{Kept, lists_held};
ghost use Rattle.interpreter.specs.Run.{after_of, turn_of};
ghost use Rattle.interpreter.specs.Script.{step_of};

use crate::decode::decode;
use crate::lists::Lists;
use crate::run::run;
use crate::{Machine, Reply};

// The call that the bytes start with, made on the stand, and the reply to it. Rules out a call made of a short body, and one that an unknown kind makes.
#[tactic(auto, unfolding(crate::specs::Script::step_of, crate::specs::Script::decoded_step))]
pub fn step(bytes: &[u8], m: &mut Machine, lists: &mut Lists) -> Reply
    ensures outcome { after_of (turn_of m.new result) (lists_held lists.new) ≡ step_of m.old (lists_held lists.old) bytes.now }
    ensures kept { Kept lists.old lists.new }
{
    match decode(bytes) {
        Some(call) => run(m, call, lists),
        None => Reply::Broken,
    }
}
