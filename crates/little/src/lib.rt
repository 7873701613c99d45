// Numbers in bytes, the lowest byte first.
#![tactic(auto)]

ghost use Rattle.std.specs.Prelude.{◌≡◌, ◌+◌, ◌*◌, ◌^◌, ◌≤◌, ◌<◌, length};
ghost use Rattle.little.specs.Little.{little};

// The number in the n bytes from `at` on, taken as one word, in which the bytes above the n are 0.
pub fn read_number(s: &[u8], at: usize, n: usize) -> u64
    requires { (at + n ≤ length s.now) × (n ≤ 8) }
    ensures { (result ≡ little n s.now at) × (result < 2 ^ (8 * n)) }
{
    let mut word = [0u8; 8];
    word[..n].copy_from_slice(&s[at..at + n]);
    u64::from_le_bytes(word)
}
