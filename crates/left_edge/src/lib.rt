// A net on a channel: its interval and, once it is routed, its span. The definitions in specs/ and the theorems in proofs/ say which spans
// the left-edge method gives; there is no function here.
#![tactic(auto)]

// From where to where a net runs, and whether it crosses any column.
#[derive(Clone, Copy)]
pub struct Interval {
    pub net: u16,
    pub left: u8,
    pub right: u8,
    pub counts: bool,
}

// A net's record in the caller's array: its two ends and its track, 0 where it crosses no column. Eight bytes, as C lays the struct out.
#[repr(C)]
#[derive(Clone, Copy, Default)]
pub struct Span {
    pub net: u16,
    pub left: u16,
    pub right: u16,
    pub track: u16,
}
