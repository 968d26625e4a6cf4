// Why a call is refused: document 01's and document 02's numbers. A panel list too short, 11, answers the panels needed as well, and is the mesh's.
ghost use Rattle.std.specs.Prelude.{◌≡◌};
ghost use Rattle.stand.specs.Answer.{refusal_number};

#[derive(Clone, Copy, Debug, PartialEq, Eq)]
pub enum Refusal {
    // The opener.
    TooManyChunks = 1,
    LastCellPastI32 = 2,
    // The lender.
    NotOpened = 3,
    WrongLength = 4,
    // The editor.
    CellOutside = 5,
    GenerationsSpent = 6,
    // The reader.
    NoSuchChunk = 7,
    MarkAhead = 8,
    MarkTooOld = 9,
    // The lender again.
    MaskTooShort = 10,
    // The pricer.
    Unpriced = 12,
    Implausible = 13,
    // Who keeps a stand in a file.
    BadForm = 14,
    OutputTooShort = 15,
}

impl Refusal {
    // The number of a refusal. Rules out numbers without a gap at 11, and two of them swapped.
    pub fn number(self) -> u32
        ensures { result ≡ refusal_number self }
    {
        self as u32
    }
}
