// Questions to a filled table.
ghost use Rattle.std.specs.Prelude.{ℕ, ◌-◌, ◌≤◌, ◌<◌, ◌≡◌, ◌&&◌, leb, length};
ghost use Rattle.bits.specs.Bits.{bit_of};
ghost use Rattle.table.specs.Planes.{AsksTable, base_of, meeting};

use bits::{bit, both, either, single};
use cells::read_word;
use entry::Grid;

// The pin behind the one that is asked for: where it stands, counted as that one is, and which steps to it are in range.
#[derive(Clone, Copy)]
pub struct Follower {
    pub at: usize,
    pub by: u64,
}

impl Follower {
    // No pin is behind: any step will do. An option would be asked at each row, where these two numbers answer as any others do.
    pub const NONE: Follower = Follower {
        at: 63,
        by: u64::MAX,
    };

    // Whether the step from a number is in range.
    pub fn near(self, x: usize) -> bool
        requires { x ≤ self.at }
        ensures { result ≡ bit_of self.by (self.at - x) }
    {
        bit(self.by, self.at - x)
    }

    // The numbers up to `high` from which the step is in range.
    pub fn back(self, high: usize) -> u64
        requires { (high < 64) × (high ≤ self.at) }
        ensures { (y : ℕ) → y < 64 → bit_of result y ≡ (leb y high && bit_of self.by (self.at - y)) }
    {
        let mut found: u64 = 0;
        for y in 0..=high {
            if self.near(y) {
                found = either(single(y), found);
            }
        }
        found
    }
}

// Plane (i, j) of a table.
#[derive(Clone, Copy)]
pub struct Plane<'a> {
    pub work: &'a [u16],
    pub grid: Grid,
    pub i: usize,
    pub j: usize,
}

impl Plane<'_> {
    // The cell in which it starts.
    pub fn start(self) -> usize
        requires { base_of self.grid self.i self.j ≤ length self.work.now }
        ensures { let a = self.entry in result ≡ base_of a.grid a.i a.j }
    {
        self.i * self.grid.stride + self.j * self.grid.size
    }

    // Whether some row from `low` to `high`, whose step to the pin behind is in range, meets the mask.
    pub fn meets(self, low: usize, high: usize, next: Follower, mask: u64) -> bool
        requires { AsksTable self.work.now self.grid self.i × (self.j < self.grid.across)
            × (low ≤ high) × (high < self.grid.rows) × (high ≤ next.at) }
        ensures { let a = self.entry in result ≡ meeting a.work.now a.grid a.i a.j low high next.at next.by mask }
    {
        let base = self.start();
        // not `low..=high`, of which the last turn would have to be shown once more
        for x in low..high + 1 {
            if next.near(x) {
                if both(read_word(self.work, base + 4 * x), mask) != 0 {
                    return true;
                }
            }
        }
        false
    }
}
