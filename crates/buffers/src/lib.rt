// Marked buffers: a buffer is filled with marks before it is lent, so that a write shows. No mark is a column or 0.
#![tactic(auto)]

use searched::{SearchRefusal, Searched};

// What a buffer holds: bytes of columns, or cells of work.
pub trait Marked: Copy + Drop + PartialEq {
    // The mark of the element at a place.
    fn mark_at(i: usize) -> Self;
}

impl Marked for u8 {
    fn mark_at(i: usize) -> u8 {
        (i % 50) as u8 + 200
    }
}

impl Marked for u16 {
    fn mark_at(i: usize) -> u16 {
        (i % 60000) as u16 + 7
    }
}

// Marks a buffer.
pub fn mark<T: Marked>(buffer: &mut [T]) {
    for (i, x) in buffer.iter_mut().enumerate() {
        *x = T::mark_at(i);
    }
}

// Whether all elements from one on have their marks.
pub fn is_marked<T: Marked>(buffer: &[T], from: usize) -> bool {
    let mut rest = buffer.iter().enumerate().skip(from);
    from <= buffer.len() && rest.all(|(i, x)| *x == T::mark_at(i))
}

// Whether the first bytes are those that were written, and the others have their marks.
pub fn columns_left(columns: &[u8], written: &[u8]) -> bool {
    columns.starts_with(written) && is_marked(columns, written.len())
}

// Whether the first cells are 0, and the others have their marks.
pub fn work_left(work: &[u16], cleared: usize) -> bool {
    work.iter().take(cleared).all(|x| *x == 0) && is_marked(work, cleared)
}

// Whether a search with this answer has left its marked buffers as the rules say: of a sheet with so many terminals, which needs
// so many cells. Each caller has the five from elsewhere, so that a struct of them would be filled for this call alone.
pub fn left(answer: Searched, pins: usize, cells: usize, columns: &[u8], work: &[u16]) -> bool {
    let (written, cleared) = match answer {
        Ok(_) => (pins, cells),
        Err(SearchRefusal::NoAssignment) => (0, cells),
        Err(_) => (0, 0),
    };
    is_marked(columns, written) && work_left(work, cleared)
}

// The first n elements of a buffer that has so many, to be lent.
pub fn first<T>(buffer: &mut [T], n: usize) -> &mut [T] {
    let n = n.min(buffer.len());
    &mut buffer[..n]
}
