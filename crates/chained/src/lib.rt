// The answer about chains of vertical constraints, with its numbers by the refusal list.
#![tactic(auto)]

ghost use Rattle.std.specs.Prelude.{◌≡◌};
ghost use Rattle.chained.specs.Numbers.{chain_number, chain_amount, net_of};

use refusals::{HasAmount, ListRefusal, Reason};

// How many nets the longest chain of two or more has, 0 where there is none, and the greater of that and the density.
#[derive(Clone, Copy, Debug, Default, PartialEq, Eq)]
pub struct Chain {
    pub nets: u32,
    pub bound: u32,
}

// Why there is no longest chain: the list is no assignment, or the constraints have a circle, with the lowest net on one.
#[derive(Clone, Copy, Debug, PartialEq, Eq)]
pub enum ChainRefusal {
    Listed(ListRefusal),
    Circle(u16),
}

// The longest chain, or why there is none.
pub type Chained = Result<Chain, ChainRefusal>;

impl Reason for ChainRefusal {
    ghost number = { chain_number };

    fn number(self) -> u8 {
        match self {
            ChainRefusal::Listed(refusal) => refusal.number(),
            ChainRefusal::Circle(_) => 19,
        }
    }
}

impl HasAmount for ChainRefusal {
    ghost amount = { chain_amount };

    fn amount(self) -> i16 {
        match self {
            ChainRefusal::Listed(refusal) => refusal.amount(),
            ChainRefusal::Circle(_) => 0,
        }
    }
}

// The net of an answer's circle; 0 where there is none.
pub fn net_of(answer: Chained) -> u16
    ensures { result ≡ net_of answer }
{
    match answer {
        Err(ChainRefusal::Circle(net)) => net,
        _ => 0,
    }
}

// A chain is refused with its list.
impl From<ListRefusal> for ChainRefusal {
    ghost use Rattle.chained.specs.declared.ChainRefusal.TheVariants.{Listed};

    ghost from_gives = { λ why answer. answer ≡ Listed why };

    fn from(why: ListRefusal) -> Self {
        ChainRefusal::Listed(why)
    }
}
