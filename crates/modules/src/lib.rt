// A side of modules as a list of bytes: the head of each module, then its pins. No other layer reads a byte of it or says how long a
// head or a pin is.
#![tactic(auto)]

ghost use Rattle.std.specs.Prelude.{◌≡◌, ◌<◌, length, MatchOption};
ghost use Rattle.modules.specs.Bytes.{pin_at, end_at, modules_in};
ghost use Rattle.modules.specs.Left.{IsFirst};

use little::read_number;

// A pin of a module: its offset from the module's left edge, at which the offset is 1, and its net.
#[derive(Clone, Copy)]
pub struct Pin {
    pub offset: u8,
    pub net: u16,
}

// The pins of a module that are still to come: their bytes.
#[derive(Clone, Copy, Default)]
pub struct Pins<'a> {
    left: &'a [u8],
}

// A module: its width, its set of allowed left edges and its pins.
#[derive(Clone, Copy, Default)]
pub struct Module<'a> {
    pub width: u8,
    pub edges: u64,
    pub pins: Pins<'a>,
}

// The modules of a side that are still to come: their bytes.
#[derive(Clone, Copy)]
pub struct Modules<'a> {
    left: &'a [u8],
}

const HEAD: usize = 10;

const PIN: usize = 3;

impl<'a> Pins<'a> {
    ghost use Rattle.modules.specs.Left.{pins_left};

    // How many there are.
    pub fn len(&self) -> usize
        ensures { result ≡ length (pins_left self.now) }
    {
        self.left.len() / PIN
    }
}

// This and the iterator of `format::Terminals` differ in size and item: a trait for the two, with bodies of three lines, would be longer than
// both.
impl<'a> Iterator for Pins<'a> {
    ghost use Rattle.std.specs.Iterator.{YieldsFirst, item_count};
    ghost use Rattle.modules.specs.Left.{pins_left};

    type Item = Pin;

    ghost next_gives = { YieldsFirst pins_left };

    ghost remaining = { item_count pins_left };

    fn next(&mut self) -> Option<Pin> {
        let (pin, others) = self.left.split_first_chunk::<PIN>()?;
        self.left = others;
        Some(read_pin(pin))
    }
}

impl<'a> Modules<'a> {
    ghost use Rattle.modules.specs.Left.{modules_left};

    // The modules of a side.
    pub fn new(side: &'a [u8]) -> Self
        ensures { modules_left result ≡ modules_in side.now }
    {
        Modules { left: side }
    }
}

impl<'a> Iterator for Modules<'a> {
    ghost use Rattle.std.specs.Iterator.{YieldsFirstBy, item_count};
    ghost use Rattle.modules.specs.Left.{module_left, modules_left};

    type Item = Module<'a>;

    ghost next_gives = { YieldsFirstBy module_left modules_left };

    ghost remaining = { item_count modules_left };

    fn next(&mut self) -> Option<Module<'a>> {
        if self.left.is_empty() {
            return None;
        }
        let (m, behind) = first_module(self.left);
        self.left = behind;
        Some(m)
    }
}

// The pin of these bytes.
fn read_pin(pin: &[u8; PIN]) -> Pin
    ensures { result ≡ pin_at pin.now 0 }
{
    Pin {
        offset: pin[0],
        net: read_number(pin, 1, 2) as u16,
    }
}

// The first module of a list and the bytes behind it, if it ends in the list.
fn whole_module(list: &[u8]) -> Option<(Module<'_>, &[u8])>
    ensures { MatchOption result (length list.now < end_at list.now 0) (λ p. IsFirst list.now p.0 p.1.now) }
{
    let (head, rest) = list.split_first_chunk::<HEAD>()?;
    let (pins, behind) = rest.split_at_checked(PIN * head[1] as usize)?;
    let m = Module {
        width: head[0],
        edges: read_number(head, 2, 8),
        pins: Pins { left: pins },
    };
    Some((m, behind))
}

// The first module of a list and the bytes behind it. One that runs past the list's end has no width, no set and no pins, and the list
// ends behind it.
fn first_module(list: &[u8]) -> (Module<'_>, &[u8])
    ensures { IsFirst list.now result.0 result.1.now }
{
    whole_module(list).unwrap_or_default()
}
