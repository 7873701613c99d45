// The longest chain of a list's nets and the nets on circles, as the rule says them: all paths of nets are gone through.
ghost use Rattle.std.specs.Prelude.{◌≡◌, ◌≤◌, ◌+◌, IfSome};

use crate::{Pins, ROOM};

// The number of nets of the longest chain, where there is one of two or more, else 0; and the greater of it and the density.
#[derive(Clone, Copy, Debug, Default, PartialEq, Eq)]
pub struct Chain {
    pub nets: usize,
    pub bound: usize,
}

// The lowest net that lies on a circle.
#[derive(Clone, Copy, Debug, PartialEq, Eq)]
pub struct Circle(pub u16);

// A chain in which no net stands twice: at least one net, in the first places. An `ArrayVec` could not be copied, as a path is.
#[derive(Clone, Copy)]
struct Path {
    nets: [u16; ROOM],
    len: usize,
    ghost in_room: { (1 ≤ len) × (len ≤ 12) },
}

impl Path {
    // The path of one net.
    fn new(net: u16) -> Path
        ensures { result.len ≡ 1 }
    {
        let mut nets = [0; ROOM];
        nets[0] = net;
        Path { nets, len: 1 }
    }

    fn last(&self) -> u16 {
        self.nets[self.len - 1]
    }

    // The path with one net more, if the net is not on it yet.
    fn with(self, net: u16) -> Option<Path>
        ensures { IfSome result (λ longer. longer.len ≡ self.len + 1) }
    {
        let Path { mut nets, len } = self;
        if len == ROOM || nets[..len].contains(&net) {
            return None;
        }
        nets[len] = net;
        Some(Path { nets, len: len + 1 })
    }
}

impl Pins<'_> {
    // What the rule says of an assignment.
    pub fn chain(self) -> Result<Chain, Circle> {
        if let Some(net) = self.lowest_on_circle() {
            return Err(Circle(net));
        }
        let nets = self.longest_chain();
        Ok(Chain {
            nets,
            bound: nets.max(self.density()),
        })
    }

    // The lowest net that lies on a circle, if there is any.
    fn lowest_on_circle(self) -> Option<u16> {
        let nets = self.sheet.nets();
        nets.iter()
            .copied()
            .filter(|net| self.leads_to(*net, *net))
            .min()
    }

    // The number of nets of the longest chain, 0 where none lies over another; where there is no circle, no chain has a net twice.
    fn longest_chain(self) -> usize {
        let nets = self.sheet.nets();
        let longest = nets
            .iter()
            .map(|net| self.longest_from(Path::new(*net)))
            .max();
        longest.filter(|len| 2 <= *len).unwrap_or(0)
    }

    // Whether a chain leads from one net to another, or back to the same.
    pub fn leads_to(self, from: u16, to: u16) -> bool {
        self.goes_on_to(Path::new(from), to)
    }

    // A path with one net more, if its last net lies over that one.
    fn longer(self, path: Path, net: u16) -> Option<Path>
        ensures { IfSome result (λ longer. longer.len ≡ path.len + 1) }
    {
        if self.lies_over(path.last(), net) {
            path.with(net)
        } else {
            None
        }
    }

    // Whether the last net of a path, or of a longer one that begins so, lies over a net.
    fn goes_on_to(self, path: Path, to: u16) -> bool {
        if self.lies_over(path.last(), to) {
            return true;
        }
        let nets = self.sheet.nets();
        for net in nets.as_slice() {
            if let Some(longer) = self.longer(path, *net)
                && self.goes_on_to(longer, to)
            {
                return true;
            }
        }
        false
    }

    // How many nets the longest path has that begins so.
    fn longest_from(self, path: Path) -> usize {
        let nets = self.sheet.nets();
        let mut most = path.len;
        for net in nets.as_slice() {
            if let Some(longer) = self.longer(path, *net) {
                most = most.max(self.longest_from(longer));
            }
        }
        most
    }
}
