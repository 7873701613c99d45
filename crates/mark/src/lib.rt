// The mark at a sheet's end: its two letters, and what it says of counting.
#![tactic(auto)]

ghost use Rattle.std.specs.Prelude.{◌≡◌};
ghost use Rattle.mark.specs.Marks.{letters, counts_straight};

// The marks that a sheet may end in.
#[derive(Clone, Copy, Debug, PartialEq, Eq)]
pub enum Mark {
    Cp,
    Cq,
}

impl Mark {
    // Its letters.
    pub fn letters(self) -> &'static [u8; 2]
        ensures { result.now ≡ letters self }
    {
        match self {
            Mark::Cp => b"CP",
            Mark::Cq => b"CQ",
        }
    }

    // Whether a straight wire counts in its column.
    pub fn counts_straight(self) -> bool
        ensures { result ≡ counts_straight self }
    {
        match self {
            Mark::Cp => false,
            Mark::Cq => true,
        }
    }
}
