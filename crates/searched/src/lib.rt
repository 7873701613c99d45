// The answer of a search, and its number by document 01's refusal list.
#![tactic(auto)]

ghost use Rattle.std.specs.Prelude.{◌≡◌};
ghost use Rattle.searched.specs.Numbers.{search_number};

use refusals::{Reason, Refusal};

// The least density, or why there is none.
pub type Searched = Result<u8, SearchRefusal>;

// Why a search finds nothing: the sheet is refused, the column buffer or the work buffer is too short, or the sheet has no assignment.
#[derive(Clone, Copy, Debug, PartialEq, Eq)]
pub enum SearchRefusal {
    Sheet(Refusal),
    Columns,
    Cells,
    NoAssignment,
}

impl Reason for SearchRefusal {
    ghost number = { search_number };

    fn number(self) -> u8 {
        match self {
            SearchRefusal::Sheet(refusal) => refusal.number(),
            SearchRefusal::Columns => 9,
            SearchRefusal::Cells => 10,
            SearchRefusal::NoAssignment => 11,
        }
    }
}

// A search is refused with its sheet.
impl From<Refusal> for SearchRefusal {
    ghost use Rattle.searched.specs.declared.SearchRefusal.TheVariants.{Sheet};

    ghost from_gives = { λ why answer. answer ≡ Sheet why };

    fn from(why: Refusal) -> Self {
        SearchRefusal::Sheet(why)
    }
}
