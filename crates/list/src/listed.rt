// A sheet with a column list beside it.
ghost use Rattle.std.specs.Prelude.{◌≡◌, ◌++◌, length};
ghost use Rattle.std.specs.Borrow.{sem};
ghost use Rattle.channel.specs.Sheet.{nets as nets_of};
ghost use Rattle.format.specs.Parts.{terminals_in};
ghost use Rattle.sheet.specs.Sections.{Beside};
ghost use Rattle.list.specs.Pins.{EndsAs};

use arrayvec::ArrayVec;
use ends::{PinList, list_nets};
use sheet::Sections;

// A sheet's sections, and a column for each of its terminals.
#[derive(Clone, Copy)]
pub struct ListedSheet<'a> {
    pub sections: Sections<'a>,
    pub columns: &'a [u8],
    ghost beside: { Beside sections columns.now },
}

impl<'a> ListedSheet<'a> {
    // The pins, with the mark: the nets of the terminals, in the room that is lent, beside their columns. The room ends as these nets.
    pub fn pins(self, nets: &'a mut ArrayVec<u16, 128>) -> PinList<'a>
        ensures mark { result.mark ≡ self.entry.sections.mark }
        ensures columns { result.columns ≡ self.entry.columns }
        ensures nets { result.nets.now
            ≡ nets_of (terminals_in self.entry.sections.top.now ++ terminals_in self.entry.sections.bottom.now) }
        ensures* room { sem 𝓛 (EndsAs
            (nets_of (terminals_in self.entry.sections.top.now ++ terminals_in self.entry.sections.bottom.now)) nets.entry) }
    {
        pins_by_room(nets, self)
    }

    // The pins, with the nets of the terminals at hand.
    fn with_nets(self, nets: &'a ArrayVec<u16, 128>) -> PinList<'a>
        requires { length nets.now.items ≡ length self.columns.now }
        ensures mark { result.mark ≡ self.entry.sections.mark }
        ensures columns { result.columns ≡ self.entry.columns }
        ensures nets { result.nets.now ≡ nets.now.items }
    {
        PinList {
            mark: self.sections.mark,
            nets,
            columns: self.columns,
        }
    }
}

// `pins` with the room first, since the borrow checker shows what is left of a loan where the first parameter is lent.
fn pins_by_room<'a>(nets: &'a mut ArrayVec<u16, 128>, listed: ListedSheet<'a>) -> PinList<'a>
    ensures mark { result.mark ≡ listed.entry.sections.mark }
    ensures columns { result.columns ≡ listed.entry.columns }
    ensures nets { result.nets.now
        ≡ nets_of (terminals_in listed.entry.sections.top.now ++ terminals_in listed.entry.sections.bottom.now) }
    ensures* room { sem 𝓛 (EndsAs
        (nets_of (terminals_in listed.entry.sections.top.now ++ terminals_in listed.entry.sections.bottom.now)) nets.entry) }
{
    list_nets(listed.sections.top, listed.sections.bottom, nets);
    listed.with_nets(nets)
}

#[cfg(test)]
mod tests {
    use crate::assignment;
    use arrayvec::ArrayVec;
    use std::test::Fail;

    // Two pins a side, of the nets 1 and 2, and 2 and 1, on three columns.
    #[test]
    fn lists_the_nets_of_both_sides(rt: HostRuntime) -> Result<(), Fail> {
        let s = b"\x01\x00\x00\x00\x07\x00\x00\x00\x00\x00\x00\x00\
            \x02\x00\x01\xff\x07\x00\x00\x00\x00\x00\x00\x00\
            \x02\x00\x00\x00\x07\x00\x00\x00\x00\x00\x00\x00\
            \x01\x00\x01\xff\x07\x00\x00\x00\x00\x00\x00\x00\
            \x00\x00\x02\x00\x18\x00\x02\x00\x03\x00CQ";
        let mut nets = ArrayVec::new();
        nets.push(7);
        let listed = assignment(s, b"\x01\x03\x02\x03")?;
        let pins = listed.pins(&mut nets);
        assert_eq!(rt; pins.nets, [1, 2, 2, 1].as_slice());
        assert_eq!(rt; pins.columns, [1, 3, 2, 3].as_slice());
        assert_eq!(rt; Some(pins.mark), trailer::read_mark(b"CQ"));
        assert_eq!(rt; nets.as_slice(), [1, 2, 2, 1].as_slice());
        Ok(())
    }
}
