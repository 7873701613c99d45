// The two arrays that the table is filled from: of every terminal the two words of its rule, and of every cut its three loads. Where
// they stand in their array is said here alone.
#![tactic(auto)]

ghost use Rattle.std.specs.Prelude.{◌+◌, ◌≤◌, ◌≡◌, length, replicate};
ghost use Rattle.arrays.specs.Rules.{pins, rule_words, side_number, range_at, allowed_at, put_rule, put_allowed};
ghost use Rattle.arrays.specs.Loads.{load_rows, load_at, put_loads};

use channel::Side;

// The most terminals of a side, and the words of their rules.
const PINS: usize = 64;

const SIDE: usize = 128;

// The cuts with one number of top pins.
const CUTS: usize = 65;

// The words of both sides' rules.
const RULES: usize = 256;

// The rules of both sides' terminals, flat: one equation says what `put` changes, where an array of arrays would carry two lengths. Places
// are counted from 1, as in the definitions, and their bounds are clauses: a type of their own would be asked of every caller. The words
// are public since the contracts of other crates name them.
#[derive(Drop)]
pub struct RuleTable {
    pub words: [u64; RULES],
}

impl RuleTable {
    // A table with each word 0.
    #[inline]
    pub fn new() -> Self
        ensures { result.words ≡ replicate rule_words 0 }
    {
        RuleTable { words: [0; RULES] }
    }

    // The distances in range of the i-th terminal, from 1, of a side.
    pub fn range(&self, side: Side, i: usize) -> u64
        requires { (1 ≤ i) × (i ≤ pins) }
        ensures { result ≡ range_at self.now.words (side_number side) i }
    {
        self.words[SIDE * side as usize + (i - 1)]
    }

    // Its allowed columns.
    pub fn allowed(&self, side: Side, i: usize) -> u64
        requires { (1 ≤ i) × (i ≤ pins) }
        ensures { result ≡ allowed_at self.now.words (side_number side) i }
    {
        self.words[SIDE * side as usize + (i - 1) + PINS]
    }

    // Puts in its two words.
    pub fn put(&mut self, side: Side, i: usize, range: u64, allowed: u64)
        requires { (1 ≤ i) × (i ≤ pins) }
        ensures words { self.new.words ≡ put_rule self.old.words (side_number side) i range allowed }
        ensures size { length self.new.words ≡ rule_words }
    {
        let at = SIDE * side as usize + (i - 1);
        self.words[at] = range;
        self.words[at + PINS] = allowed;
    }

    // Puts in its allowed columns alone.
    pub fn put_allowed(&mut self, side: Side, i: usize, allowed: u64)
        requires { (1 ≤ i) × (i ≤ pins) }
        ensures words { self.new.words ≡ put_allowed self.old.words (side_number side) i allowed }
        ensures size { length self.new.words ≡ rule_words }
    {
        let place = SIDE * side as usize + (i - 1) + PINS;
        self.words[place] = allowed;
    }
}

// The loads of a column with a top pin only, a bottom pin only, and both.
#[derive(Clone, Copy, Default)]
pub struct Loads {
    pub top: u8,
    pub bottom: u8,
    pub both: u8,
}

// The loads of a column of the cut (i, j), from the table of the loads: bytes, flat for the same reason, with a row of cuts for each number of
// top pins. It has as many rows as its sheet needs, so its length is the caller's.
pub fn loads_at(table: &[u8], i: usize, j: usize) -> Loads
    requires { (j ≤ pins) × (load_rows (i + 1) ≤ length table.now) }
    ensures top { result.top ≡ load_at table.now i j 0 }
    ensures bottom { result.bottom ≡ load_at table.now i j 1 }
    ensures both { result.both ≡ load_at table.now i j 2 }
{
    let at = 3 * (CUTS * i + j);
    Loads {
        top: table[at],
        bottom: table[at + 1],
        both: table[at + 2],
    }
}

// Puts the three loads of the cut (i, j) into such a table.
pub fn put_loads(table: &mut [u8], i: usize, j: usize, loads: Loads)
    requires { (j ≤ pins) × (load_rows (i + 1) ≤ length table.old) }
    ensures { table.new ≡ put_loads table.old i j loads.top loads.bottom loads.both }
{
    let here = 3 * (CUTS * i + j);
    table[here] = loads.top;
    table[here + 1] = loads.bottom;
    table[here + 2] = loads.both;
}
