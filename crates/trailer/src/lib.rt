// The trailer at the end of a sheet's bytes: its mark, its numbers, and where each side's section stands by them. No other layer reads a
// byte of it or says how long it is.
#![tactic(auto)]

ghost use Rattle.std.specs.Prelude.{◌≡◌};
ghost use Rattle.trailer.specs.Trailer.{has_mark, mark_of, TrailerRead};

use little::read_number;
use mark::Mark;

// Where one side's section stands in the sheet: its offset and its number of terminals.
#[derive(Clone, Copy, Default)]
pub struct Part {
    pub at: usize,
    pub count: usize,
}

// The numbers of the trailer.
#[derive(Clone, Copy, Default)]
pub struct Trailer {
    pub top: Part,
    pub bottom: Part,
    pub columns: usize,
}

pub const TRAILER: usize = 12;

// The mark, if the last two bytes are the letters of one.
#[tactic(auto, unfolding(crate::specs::Trailer::mark_of))]
pub fn read_mark(s: &[u8]) -> Option<Mark>
    ensures { result ≡ mark_of s.now }
{
    if has_mark(s, b"CP") {
        Some(Mark::Cp)
    } else if has_mark(s, b"CQ") {
        Some(Mark::Cq)
    } else {
        None
    }
}

// Whether the last two bytes are these letters.
fn has_mark(s: &[u8], letters: &[u8; 2]) -> bool
    ensures { result ≡ has_mark s.now letters.now }
{
    s.ends_with(letters)
}

// The trailer's numbers, from its bytes at the end, and all 0 where the file is shorter than a trailer: this call cannot fail, and `form`
// tests the length first.
pub fn read_trailer(s: &[u8]) -> Trailer
    ensures { TrailerRead s.now result }
{
    if s.len() < TRAILER {
        return Trailer::default();
    }
    let at = s.len() - TRAILER;
    let top = Part {
        at: read_number(s, at, 2) as usize,
        count: read_number(s, at + 2, 2) as usize,
    };
    let bottom = Part {
        at: read_number(s, at + 4, 2) as usize,
        count: read_number(s, at + 6, 2) as usize,
    };
    let columns = read_number(s, at + 8, 2) as usize;
    Trailer {
        top,
        bottom,
        columns,
    }
}
