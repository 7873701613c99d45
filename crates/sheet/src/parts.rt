// The parts of a sound sheet: its shape, one side's section, one terminal's record.
ghost use Rattle.std.specs.Prelude.{◌≡◌, ◌≤◌};
ghost use Rattle.format.specs.Format.{of_side};
ghost use Rattle.format.specs.Parts.{OwnPart};
ghost use Rattle.soundness.specs.Check.{check_of};
ghost use Rattle.sheet.specs.Sections.{Held};
ghost use Rattle.sheet.specs.Parts.{cells_of, layout_of, opened_of, shape_of, section_at, section_of, entry_in, entry_at};

use crate::{Layout, Sections, Shape};
use format::{Side, count_in, part_in, terminal_at};
use mark::Mark;
use refusals::Refusal;
use soundness::check;
use terminal::Record;
use trailer::{Part, read_mark, read_trailer};

// Checks the sheet, and gives all that is needed to read a sound one further: nothing of it asks for a second check.
#[tactic(auto, unfolding(crate::specs::Parts::opened_of))]
pub fn open(s: &[u8]) -> Result<Layout, Refusal>
    ensures { result ≡ opened_of s.now }
{
    check(s)?;
    Ok(layout_of(s))
}

impl Layout {
    // The sections of the sheet that has this layout.
    pub fn sections(self, s: &[u8]) -> Sections
        ensures { Held s.entry self result }
    {
        Sections {
            mark: self.mark,
            shape: self.shape,
            top: part_in(s, self.top),
            bottom: part_in(s, self.bottom),
        }
    }
}

// The layout of a sheet that the check leaves.
fn layout_of(s: &[u8]) -> Layout
    requires { check_of s.now ≡ Ok tt }
    ensures { result ≡ layout_of s.now }
{
    let t = read_trailer(s);
    let top = t.top;
    let bottom = t.bottom;
    let columns = t.columns;
    let p = top.count;
    let q = bottom.count;
    let shape = Shape {
        columns,
        top: p,
        bottom: q,
        cells: cells_needed(columns, p, q),
        pins: p + q,
    };
    let mark = read_mark(s).unwrap_or(Mark::Cp);
    Layout {
        mark,
        shape,
        top,
        bottom,
    }
}

// The work cells that a search needs.
fn cells_needed(columns: usize, p: usize, q: usize) -> usize
    requires { (columns ≤ 64) × (p ≤ 64) × (q ≤ 64) }
    ensures { result ≡ cells_of columns p q }
{
    let plane = (columns + 1) * (columns + 1);
    (p + 1) * (q + 1) * plane
}

// The shape of a sound sheet, and all 0 for a refused one: `cazdrob_cells` gives this 0 (document 01), and the call cannot fail.
pub fn shape_of(s: &[u8]) -> Shape
    ensures { result ≡ shape_of s.now }
{
    match open(s) {
        Ok(layout) => layout.shape,
        Err(_) => Shape::default(),
    }
}

// Of two parts, that of a side.
fn of_side(top: Part, bottom: Part, side: Side) -> Part
    ensures { result ≡ of_side top bottom side }
{
    match side {
        Side::Top => top,
        Side::Bottom => bottom,
    }
}

// One side's section of a sound sheet, as a part of the sheet; the empty part for a refused sheet, as this call cannot fail either.
pub fn section(s: &[u8], side: Side) -> &[u8]
    ensures { OwnPart s.entry result (section_at s.now side) (section_of s.now side) }
{
    match open(s) {
        Ok(layout) => part_in(s, of_side(layout.top, layout.bottom, side)),
        Err(_) => &s[..0],
    }
}

// The record at a place, from 1, of a section.
pub fn record_in(part: &[u8], place: usize) -> Option<Record>
    ensures { result ≡ entry_in part.now place }
{
    let i = place.checked_sub(1)?;
    if i < count_in(part) {
        Some(terminal_at(part, i))
    } else {
        None
    }
}

// The record at a side and place, from 1, of a sheet.
pub fn record_at(s: &[u8], side: Side, place: usize) -> Option<Record>
    ensures { result ≡ entry_at s.now side place }
{
    record_in(section(s, side), place)
}
