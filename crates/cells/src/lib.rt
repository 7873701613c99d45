// Words in 16-bit cells.
#![tactic(auto)]

ghost use Rattle.std.specs.Prelude.{◌+◌, ◌*◌, ◌≤◌, ◌≡◌, length};
ghost use Rattle.cells.specs.Cells.{word_at, put_word};

// The word in the four cells from `at` on.
pub fn read_word(cells: &[u16], at: usize) -> u64
    requires { at + 4 ≤ length cells.now }
    ensures { result ≡ word_at cells.now at }
{
    joined(cells[at], cells[at + 1], cells[at + 2], cells[at + 3])
}

// Four cells as one number, the lowest first. By hand, since the cells are C's, 16 bits wide, and std joins bytes.
fn joined(a: u16, b: u16, c: u16, d: u16) -> u64
    ensures { result ≡ a + 65536 * (b + 65536 * (c + 65536 * d)) }
{
    a as u64 + 65536 * (b as u64 + 65536 * (c as u64 + 65536 * d as u64))
}

// Puts a word into the four cells from `at` on.
pub fn write_word(cells: &mut [u16], at: usize, w: u64)
    requires { at + 4 ≤ length cells.old }
    ensures { cells.new ≡ put_word cells.old at w }
{
    let b = w / 65536;
    let c = b / 65536;
    let d = c / 65536;
    cells[at] = (w % 65536) as u16;
    cells[at + 1] = (b % 65536) as u16;
    cells[at + 2] = (c % 65536) as u16;
    cells[at + 3] = (d % 65536) as u16;
}
