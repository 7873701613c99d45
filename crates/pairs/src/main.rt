// Searches two sheets by one call, and prints both answers, whether what the rules say of the two holds, and whether the
// buffers are left as the rules say. Every sheet is sheet A or a changed form of it.
#![tactic(auto)]

use fixtures::SheetA;
use mark::Mark;
use std::io::{self, Write};
use trial::{Form, Rule, pair};

mod trial;

// The pairs in which both sheets have this mark.
fn try_mark<W: Write>(out: &mut W, mark: Mark) -> io::Result<()> {
    let narrow = Form::new(SheetA::new(2, mark), 81);
    let a = Form::new(SheetA::new(3, mark), 144);
    // L, the sets and the ranges grow, and the sections change places
    let close = SheetA {
        greatest: 1,
        ..SheetA::new(2, mark)
    };
    let turned = SheetA {
        bottom_first: true,
        ..SheetA::new(3, mark)
    };
    pair(
        out,
        "loosened: A with L=2 and ranges 1 to 1, then A with its bottom section first",
        Form::new(close, 81),
        Form::new(turned, 144),
        Rule::NoHigher,
    )?;
    // p+q is 4, so that 4 columns are enough for the rule
    let longer = SheetA {
        bottom_first: true,
        ..SheetA::new(6, mark)
    };
    pair(
        out,
        "lengthened: A with L=4, then A with L=6 and its bottom section first",
        Form::new(SheetA::new(4, mark), 225),
        Form::new(longer, 441),
        Rule::Same,
    )?;
    // L is smaller, so that neither rule applies, and with the mark CP the second density is higher
    pair(out, "neither: A, then A with L=2", a, narrow, Rule::Nothing)?;
    // the rule speaks of a first sheet that has an assignment
    pair(
        out,
        "loosened, but the first has no assignment: A with L=1, then A with L=2",
        Form::new(SheetA::new(1, mark), 36),
        narrow,
        Rule::Nothing,
    )?;
    pair(
        out,
        "short buffers: A in 3 column bytes, then A in 143 work cells",
        a.in_buffers(3, 144),
        a.in_buffers(4, 143),
        Rule::Nothing,
    )?;
    // each search stands by itself: the second has its answer though the first is refused
    let beyond = SheetA {
        set: 0b1111,
        ..SheetA::new(3, mark)
    };
    pair(
        out,
        "the first refused: A with column 4 in its sets, then A",
        Form::new(beyond, 144),
        a,
        Rule::Nothing,
    )
}

fn main(rt: HostRuntime) -> io::Result<()> {
    let mut out = io::writer(&rt);
    writeln!(out, "sheets with the mark CP")?;
    try_mark(&mut out, Mark::Cp)?;
    writeln!(out, "sheets with the mark CQ")?;
    try_mark(&mut out, Mark::Cq)?;
    // the marks differ, so that neither rule applies, and the second density is higher
    writeln!(out, "sheets with different marks")?;
    pair(
        &mut out,
        "neither: A with the mark CP, then A with the mark CQ",
        Form::new(SheetA::new(3, Mark::Cp), 144),
        Form::new(SheetA::new(3, Mark::Cq), 144),
        Rule::Nothing,
    )
}
