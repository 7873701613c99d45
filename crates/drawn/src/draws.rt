// Numbers that look random. Each depends on the sheet's number, on what is drawn and for which terminal, and
// on nothing else.

use std::ops::RangeInclusive;

fn scramble(x: u64) -> u64 {
    let a = x ^ (x << 13);
    let b = a ^ (a >> 7);
    let c = b ^ (b << 17);
    c.rotate_left(32).wrapping_add(2685821657736338717)
}

// What is drawn is a number and no enum, which would name numbers that each occur once: it is only mixed in, and nothing branches on it.
pub fn bits(sheet: u64, what: u64, t: usize) -> u64 {
    let x = sheet.wrapping_add(what << 56);
    let y = x.wrapping_add((t as u64) << 48);
    scramble(scramble(scramble(scramble(y))))
}

// A number of a range.
pub fn draw(sheet: u64, what: u64, t: usize, range: RangeInclusive<u8>) -> u8 {
    let (low, high) = range.into_inner();
    let size = high.saturating_sub(low) as u64 + 1;
    let x = bits(sheet, what, t) % size;
    low + x as u8
}
