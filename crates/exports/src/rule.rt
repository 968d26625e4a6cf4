// Numbers that stand for a rule. A number that stands for none is refused by BAD_ARGUMENT, before all else.
// Kept: the rule and its refusal are numbers, since C passes and gets them; no TryFrom here, since u32, `Beyond` and the trait are all of other crates.
ghost use Rattle.std.specs.Prelude.{◌≡◌};
ghost use Rattle.exports.specs.Rule.{rule_answer, rule_at};

use mesh::Beyond;

pub const BAD_ARGUMENT: u32 = 100;

// 0: outside hides a face; 1: outside shows it.
pub(crate) fn rule_at(rule: u32) -> Option<Beyond>
    ensures { rule_answer result ≡ rule_at rule }
{
    match rule {
        0 => Some(Beyond::Solid),
        1 => Some(Beyond::Empty),
        _ => None,
    }
}
