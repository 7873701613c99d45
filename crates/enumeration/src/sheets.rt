// A small sheet, and a list of columns for its terminals.
ghost use Rattle.std.specs.Prelude.{◌≤◌, length};

use arrayvec::ArrayVec;
use mark::Mark;
use terminal::Record;

// The most terminals of a sheet, and the most columns of a list.
pub const ROOM: usize = 12;

// A column for each terminal, of which the sheet says how many: an `ArrayVec` could not be copied, as a list is.
pub type List = [u8; ROOM];

pub type Nets = ArrayVec<u16, ROOM>;

// L, p, q, the mark, and the terminals, top before bottom, of which p and q say how many: an `ArrayVec` could not be copied, as a sheet
// is.
#[derive(Clone, Copy)]
pub struct Sheet {
    pub columns: u8,
    pub top: u8,
    pub bottom: u8,
    pub mark: Mark,
    pub records: [Record; ROOM],
}

impl Sheet {
    // p+q, of a sheet that keeps to its room.
    pub fn pins(&self) -> usize
        ensures { result ≤ 12 }
    {
        (self.top as usize + self.bottom as usize).min(ROOM)
    }

    // The terminals that there are.
    pub fn terminals(&self) -> &[Record]
        ensures { length result.now ≤ 12 }
    {
        &self.records[..self.pins()]
    }

    // The nets, each once.
    pub fn nets(&self) -> Nets {
        let mut nets = ArrayVec::new();
        for terminal in self.terminals() {
            if !nets.contains(&terminal.net) {
                nets.push(terminal.net);
            }
        }
        nets
    }

    // How many pins a net has.
    pub fn count_pins(&self, net: u16) -> usize {
        let pins = self
            .terminals()
            .iter()
            .filter(|terminal| terminal.net == net);
        pins.count()
    }
}

// The pins of a sheet: its terminals, each in its column of a list.
#[derive(Clone, Copy)]
pub struct Pins<'a> {
    pub sheet: &'a Sheet,
    pub list: &'a List,
}
