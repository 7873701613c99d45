// The search for the best assignment of a sheet.
#![tactic(auto)]

ghost use Rattle.std.specs.Prelude.{◌≡◌};
ghost use Rattle.sheet.specs.Parts.{opened_of};
ghost use Rattle.search.specs.Answer.{Searches};
ghost use Rattle.search.specs.Pair.{SearchesBoth};

use searched::{SearchRefusal, Searched};
use sheet::Layout;

// The answers of two searches.
#[derive(Clone, Copy)]
pub struct Both {
    pub first: Searched,
    pub second: Searched,
}

// Finds the best assignment of the sheet and writes its columns, top then bottom. The two buffers stay two parameters here and below, as C
// lends them.
pub fn search(s: &[u8], columns: &mut [u8], work: &mut [u16]) -> Searched
    ensures { Searches s.now columns.old work.old columns.new work.new result }
{
    let layout = sheet::open(s)?;
    search_layout(s, layout, columns, work)
}

// The same of a sheet that opened with this layout.
fn search_layout(s: &[u8], layout: Layout, columns: &mut [u8], work: &mut [u16]) -> Searched
    requires { opened_of s.now ≡ Ok layout }
    ensures { Searches s.now columns.old work.old columns.new work.new result }
{
    let shape = layout.shape;
    if columns.len() < shape.pins {
        return Err(SearchRefusal::Columns);
    }
    if work.len() < shape.cells {
        return Err(SearchRefusal::Cells);
    }
    solve::solve(layout.sections(s), columns, work).ok_or(SearchRefusal::NoAssignment)
}

// Searches two sheets, each on its own buffers. Of every two sound sheets of which the second is the first loosened or
// lengthened it promises demand 3. Its two triples are those of the two calls of `search`.
pub fn search_both(
    a: &[u8],
    c: &mut [u8],
    u: &mut [u16],
    b: &[u8],
    d: &mut [u8],
    v: &mut [u16],
) -> Both
    ensures { SearchesBoth a.now b.now
        c.old u.old c.new u.new
        d.old v.old d.new v.new result }
{
    let first = search(a, c, u);
    let second = search(b, d, v);
    Both { first, second }
}
