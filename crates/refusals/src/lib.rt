// The refusal list, as far as it is a sheet's or a column list's, and what an answer of any call says of its refusal: number and amount.
#![tactic(auto)]

ghost use Rattle.std.specs.Prelude.{ℕ, ℤ, ◌≡◌};
ghost use Rattle.refusals.specs.Refusals.{number_of};
ghost use Rattle.refusals.specs.Lists.{list_number, list_amount};
ghost use Rattle.refusals.specs.Answers.{number_in, amount_in};

// Why a sheet is refused.
#[derive(Clone, Copy, Debug, PartialEq, Eq)]
pub enum Refusal {
    Short,
    Mark,
    Length,
    Count,
    Layout,
    Net,
    Distance,
    Beyond,
}

// The answer of a check: sound, or the first refusal that applies.
pub type Checked = Result<(), Refusal>;

// Why a column list is no assignment of a sheet: the sheet is refused, the list is not p+q long, a column is not in its terminal's set, or
// a distance is out of range by so many columns, negative where it is too short and positive where it is too long.
#[derive(Clone, Copy, Debug, PartialEq, Eq)]
pub enum ListRefusal {
    Sheet(Refusal),
    Count,
    Allowed,
    Distance(i16),
}

// A refusal that has its number in the list.
pub trait Reason {
    ghost number: { Self → ℕ };

    fn number(self) -> u8
        ensures { result ≡ number self };
}

// A refusal that may be 14, with the columns by which a distance is out of range; 0 with any other, as C gets it.
pub trait HasAmount {
    ghost amount: { Self → ℤ };

    fn amount(self) -> i16
        ensures { result ≡ amount self };
}

impl Reason for Refusal {
    ghost number = { number_of };

    fn number(self) -> u8 {
        match self {
            Refusal::Short => 1,
            Refusal::Mark => 2,
            Refusal::Length => 3,
            Refusal::Count => 4,
            Refusal::Layout => 5,
            Refusal::Net => 6,
            Refusal::Distance => 7,
            Refusal::Beyond => 8,
        }
    }
}

impl Reason for ListRefusal {
    ghost number = { list_number };

    fn number(self) -> u8 {
        match self {
            ListRefusal::Sheet(refusal) => refusal.number(),
            ListRefusal::Count => 12,
            ListRefusal::Allowed => 13,
            ListRefusal::Distance(_) => 14,
        }
    }
}

impl HasAmount for ListRefusal {
    ghost amount = { list_amount };

    fn amount(self) -> i16 {
        match self {
            ListRefusal::Sheet(_) => 0,
            ListRefusal::Count => 0,
            ListRefusal::Allowed => 0,
            ListRefusal::Distance(amount) => amount,
        }
    }
}

// A list is refused with its sheet.
impl From<Refusal> for ListRefusal {
    ghost use Rattle.refusals.specs.declared.ListRefusal.TheVariants.{Sheet};

    ghost from_gives = { λ why list. list ≡ Sheet why };

    fn from(why: Refusal) -> Self {
        ListRefusal::Sheet(why)
    }
}

// The number of an answer's refusal; 0 where there is none.
pub fn number_of<T: Copy, E: Reason + Copy>(answer: Result<T, E>) -> u8
    ensures { result ≡ number_in E.number answer }
{
    match answer {
        Ok(_) => 0,
        Err(why) => why.number(),
    }
}

// The amount of an answer's refusal; 0 where there is none.
pub fn amount_of<T: Copy, E: HasAmount + Copy>(answer: Result<T, E>) -> i16
    ensures { result ≡ amount_in E.amount answer }
{
    match answer {
        Ok(_) => 0,
        Err(why) => why.amount(),
    }
}
