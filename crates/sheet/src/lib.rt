// The sheet layer: the parts of a sound sheet.
#![tactic(auto)]

mod parts;

use mark::Mark;
pub use parts::{open, record_at, record_in, section, shape_of};
use trailer::Part;

// L, p and q of a sound sheet, and what a search of it needs: work cells and column bytes.
// All are 0 for a refused sheet.
#[derive(Clone, Copy, Default)]
pub struct Shape {
    pub columns: usize,
    pub top: usize,
    pub bottom: usize,
    pub cells: usize,
    pub pins: usize,
}

// A sound sheet's mark and shape, and where its two sections stand.
#[derive(Clone, Copy)]
pub struct Layout {
    pub mark: Mark,
    pub shape: Shape,
    pub top: Part,
    pub bottom: Part,
}

// The sections of a sound sheet, with its mark and shape.
#[derive(Clone, Copy)]
pub struct Sections<'a> {
    pub mark: Mark,
    pub shape: Shape,
    pub top: &'a [u8],
    pub bottom: &'a [u8],
}
