// The first word of a line: which call it names.
ghost use Rattle.std.specs.Prelude.{◌≡◌};
ghost use Rattle.quote.specs.Verb.{name_of, verb_named, verb_of};

use crate::fault::Fault;

#[derive(Clone, Copy, Debug, PartialEq, Eq)]
pub(crate) enum Verb {
    Open,
    Set,
    Fill,
    Refresh,
    Rate,
    Cut,
}

// Every verb, for a name to be looked up in.
const VERBS: [Verb; 6] = [
    Verb::Open,
    Verb::Set,
    Verb::Fill,
    Verb::Refresh,
    Verb::Rate,
    Verb::Cut,
];

impl Verb {
    fn name(self) -> &'static [u8]
        ensures { result.now ≡ name_of self }
    {
        match self {
            Verb::Open => b"open",
            Verb::Set => b"set",
            Verb::Fill => b"fill",
            Verb::Refresh => b"refresh",
            Verb::Rate => b"rate",
            Verb::Cut => b"cut",
        }
    }

    fn named(name: &[u8]) -> Option<Verb>
        ensures { result ≡ verb_named name.now }
    {
        VERBS.iter().copied().find(|v| v.name() == name)
    }
}

// A name that no call has is a fault. Rules out a part of a name, and a name with more behind it.
impl TryFrom<&[u8]> for Verb {
    type Error = Fault;

    ghost try_from_gives = { λ name r. r ≡ verb_of name.now };

    #[tactic(auto, unfolding(crate::specs::Verb::verb_of))]
    fn try_from(name: &[u8]) -> Result<Verb, Fault> {
        Verb::named(name).ok_or(Fault::UnknownWord)
    }
}
