// The measures that all passes over one sheet go by.
use entry::Grid;

// The table's measures, the numbers of pins and the length of the channel.
#[derive(Clone, Copy)]
pub struct Plan {
    pub grid: Grid,
    pub p: usize,
    pub q: usize,
    pub l: usize,
}
