// The letters of the walk: which pins each places, and the columns that it writes.
#![tactic(auto)]

ghost use Rattle.std.specs.Prelude.{◌+◌, ◌-◌, ◌≤◌, ◌<◌, ◌≡◌, length};
ghost use Rattle.letters.specs.Letters.{letter_number, has_top_pin, has_bottom_pin, behind, written};

// How far the walk has come: c columns are still to be lettered, i top and j bottom pins to be placed, and the pins
// placed last stand in the columns top and bottom.
#[derive(Clone, Copy)]
pub struct Progress {
    pub c: usize,
    pub i: usize,
    pub j: usize,
    pub top: usize,
    pub bottom: usize,
}

// A letter of the walk: the pins of its column.
#[derive(Clone, Copy)]
pub enum Letter {
    Empty,
    Top,
    Bottom,
    Both,
}

// The letter of a number; any number but 1 to 3 places nothing. No call here holds a number: it is for callers that do, which need not
// test theirs.
impl From<u8> for Letter {
    ghost use Rattle.letters.specs.Letters.{SameLetter};

    ghost from_gives = { λ number letter. SameLetter number (letter_number letter) };

    fn from(number: u8) -> Self {
        match number {
            1 => Letter::Top,
            2 => Letter::Bottom,
            3 => Letter::Both,
            _ => Letter::Empty,
        }
    }
}

// Whether a letter has a top pin, of i that are left.
fn has_top_pin(letter: Letter, i: usize) -> bool
    ensures { result ≡ has_top_pin (letter_number letter) i }
{
    0 < i && matches!(letter, Letter::Top | Letter::Both)
}

// Whether it has a bottom pin, of j that are left. One function for both sides would be told which, and be no shorter.
fn has_bottom_pin(letter: Letter, j: usize) -> bool
    ensures { result ≡ has_bottom_pin (letter_number letter) j }
{
    0 < j && matches!(letter, Letter::Bottom | Letter::Both)
}

// The walk behind a letter.
pub fn behind(letter: Letter, m: Progress) -> Progress
    requires { 0 < m.c }
    ensures { result ≡ behind (letter_number letter) m }
{
    let top = has_top_pin(letter, m.i);
    let bottom = has_bottom_pin(letter, m.j);
    Progress {
        c: m.c - 1,
        i: m.i - usize::from(top),
        j: m.j - usize::from(bottom),
        top: if top { m.c } else { m.top },
        bottom: if bottom { m.c } else { m.bottom },
    }
}

// Writes a letter's columns.
pub fn put(columns: &mut [u8], p: usize, letter: Letter, m: Progress)
    requires { (m.c ≤ 64) × (m.i ≤ p) × (p + m.j ≤ length columns.old) }
    ensures { columns.new ≡ written p (letter_number letter) m columns.old }
{
    let c = m.c as u8;
    if has_top_pin(letter, m.i) {
        columns[m.i - 1] = c;
    }
    if has_bottom_pin(letter, m.j) {
        columns[p + (m.j - 1)] = c;
    }
}
