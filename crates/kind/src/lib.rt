// The kind of a net, by its number: whether it leaves the channel by an end.
#![tactic(auto)]

ghost use Rattle.std.specs.Prelude.{◌≡◌};
ghost use Rattle.kind.specs.Kinds.{left_start, right_start};

// A net that stays in the channel, or leaves it at the left, at the right or at both ends.
#[derive(Clone, Copy, Debug, PartialEq, Eq)]
pub enum Kind {
    Plain,
    Left,
    Right,
    BothEnds,
}

// The kind of a net.
impl From<u16> for Kind {
    ghost use Rattle.kind.specs.Kinds.{kind_of};

    ghost from_gives = { λ net kind. kind ≡ kind_of net };

    #[tactic(auto, unfolding(crate::specs::Kinds::kind_of))]
    fn from(net: u16) -> Self {
        match net {
            0..=60000 => Kind::Plain,
            60001..=62000 => Kind::Left,
            62001..=64000 => Kind::Right,
            _ => Kind::BothEnds,
        }
    }
}

impl Kind {
    // Where a scan of a net's pins for its leftmost starts: left of every column if the net leaves there, else right of all.
    pub fn left_start(self) -> u8
        ensures { result ≡ left_start self }
    {
        match self {
            Kind::Plain => 255,
            Kind::Left => 0,
            Kind::Right => 255,
            Kind::BothEnds => 0,
        }
    }

    // Where one for its rightmost starts: right of every column if the net leaves there, else left of all.
    pub fn right_start(self) -> u8
        ensures { result ≡ right_start self }
    {
        match self {
            Kind::Plain => 0,
            Kind::Left => 0,
            Kind::Right => 255,
            Kind::BothEnds => 255,
        }
    }
}
