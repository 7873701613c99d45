// Whether a column list is an assignment of a sheet, which a call on such a list asks first, and an assignment beside its sheet. The sheet
// is read only through the sheet layer.
#![tactic(auto)]

mod listed;
mod rules;

ghost use Rattle.std.specs.Prelude.{◌≡◌};
ghost use Rattle.sheet.specs.Sections.{sheet_held};
ghost use Rattle.sheet.specs.declared.Layout.{Layout};
ghost use Rattle.list.specs.Answer.{with_layout, columns_listed, listed_of};
ghost use Rattle.list.specs.Listed.{GivesListed};

pub use listed::ListedSheet;
use refusals::ListRefusal;
use rules::{ListedSide, first_amount};
use sheet::Layout;

// Checks a column list: 1 to 8 of the sheet, then 12, 13 and 14 of the list; of an assignment it gives its sheet's layout.
pub fn check(s: &[u8], columns: &[u8]) -> Result<Layout, ListRefusal>
    ensures { result ≡ listed_of s.now columns.now }
{
    let layout = sheet::open(s)?;
    if columns.len() != layout.shape.pins {
        return Err(ListRefusal::Count);
    }
    let listed = ListedSheet {
        sections: layout.sections(s),
        columns,
    };
    check_columns(listed)?;
    Ok(layout)
}

// An assignment beside the sections of its sheet, or why the list is none.
pub fn assignment<'a>(s: &'a [u8], columns: &'a [u8]) -> Result<ListedSheet<'a>, ListRefusal>
    ensures { GivesListed s.entry columns.entry (listed_of s.now columns.now) result }
{
    let layout = check(s, columns)?;
    let sections = layout.sections(s);
    Ok(ListedSheet { sections, columns })
}

// 13 and 14 of a list that is p+q long.
fn check_columns(listed: ListedSheet) -> Result<(), ListRefusal>
    ensures { (n : Layout) → with_layout n result ≡ columns_listed (sheet_held listed.entry.sections) listed.entry.columns.now n }
{
    let p = listed.sections.shape.top;
    let top = ListedSide {
        part: listed.sections.top,
        columns: &listed.columns[..p],
    };
    let bottom = ListedSide {
        part: listed.sections.bottom,
        columns: &listed.columns[p..],
    };
    if !top.is_allowed() || !bottom.is_allowed() {
        return Err(ListRefusal::Allowed);
    }
    match first_amount(top, bottom) {
        Some(amount) => Err(ListRefusal::Distance(amount)),
        None => Ok(()),
    }
}
