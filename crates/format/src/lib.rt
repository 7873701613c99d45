// The sections of a sheet's bytes and the records in them. No other layer reads a byte of a record or says how long one is.
#![tactic(auto)]

ghost use Rattle.std.specs.Prelude.{◌≡◌, ◌+◌, ◌*◌, ◌≤◌, min, length, get_or};
ghost use Rattle.channel.specs.Sheet.{no_terminal};
ghost use Rattle.terminal.specs.Terminal.{record_of};
ghost use Rattle.format.specs.Format.{record_size, terminal_at};
ghost use Rattle.format.specs.Parts.{OwnPart, offset_of, bytes_of, terminals_in};

pub use channel::Side;
use little::read_number;
use terminal::Record;
use trailer::Part;

pub const RECORD: usize = 12;

// The terminals of a section that are still to come.
#[derive(Clone, Copy)]
pub struct Terminals<'a> {
    left: &'a [u8],
}

impl<'a> Terminals<'a> {
    ghost use Rattle.format.specs.Left.{terminals_left};

    // The terminals of a section.
    pub fn new(part: &'a [u8]) -> Self
        ensures { terminals_left result ≡ terminals_in part.now }
    {
        Terminals { left: part }
    }
}

impl<'a> Iterator for Terminals<'a> {
    ghost use Rattle.std.specs.Iterator.{YieldsFirstBy, item_count};
    ghost use Rattle.terminal.specs.Terminal.{terminal_of};
    ghost use Rattle.format.specs.Left.{terminals_left};

    type Item = Record;

    ghost next_gives = { YieldsFirstBy terminal_of terminals_left };

    ghost remaining = { item_count terminals_left };

    #[tactic(auto, using(crate::proofs::Records::no_terminal_left, crate::proofs::Records::first_terminal))]
    fn next(&mut self) -> Option<Record> {
        let (record, rest) = self.left.split_first_chunk::<RECORD>()?;
        self.left = rest;
        Some(read_record(record, 0))
    }
}

// The records of a part, as far as they lie in the bytes, which may be any.
pub fn part_in(s: &[u8], part: Part) -> &[u8]
    ensures { OwnPart s.entry result (offset_of s.now part) (bytes_of s.now part) }
{
    let at = part.at.min(s.len());
    let end = at
        .saturating_add(RECORD.saturating_mul(part.count))
        .min(s.len());
    &s[at..end]
}

// How many terminals a section has.
pub fn count_in(part: &[u8]) -> usize
    ensures { result ≡ length (terminals_in part.now) }
{
    part.len() / RECORD
}

// The record of terminal i, from 0, of a section, and all 0 where there is none: this call cannot fail, and `sheet::record_in` says of a
// place whether it has a record.
pub fn terminal_at(part: &[u8], i: usize) -> Record
    ensures { result ≡ record_of (get_or (terminals_in part.now) i no_terminal) }
{
    if i < part.len() / RECORD {
        read_record(part, RECORD * i)
    } else {
        Record::default()
    }
}

// The record at an offset.
fn read_record(s: &[u8], at: usize) -> Record
    requires { at + record_size ≤ length s.now }
    ensures { result ≡ record_of (terminal_at s.now at) }
{
    let net = read_number(s, at, 2) as u16;
    let least = s[at + 2];
    let greatest = s[at + 3];
    let allowed = read_number(s, at + 4, 8);
    Record {
        net,
        least,
        greatest,
        allowed,
    }
}
