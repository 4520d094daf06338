//! Clients of the sheet: tries that are struck and kept, and a wish tried out and taken back. Every ticket is spent, which the
//! check asks of each way through a function.
ghost use Rattle.std.specs.Prelude.{◌≡◌};

use books::counter::CounterBook;
use law::calls::Refusal;
use runs::settled::Settled;
use sheet::sheet::Sheet;

/// Opens a try and strikes it, then opens another and keeps it; refused where a try cannot be opened.
// Each ticket lies in an `Option`, so that what is wrong with one spent twice, or let go, is a fact that the check refuses.
pub fn strike_then_keep(sheet: &mut Sheet<CounterBook>) -> Result<(), Refusal>
    ensures { sheet.new.number ≡ sheet.old.number }
{
    let mut first = Some(sheet.open()?);
    sheet.strike(first.take().unwrap()).unwrap();
    let mut second = Some(sheet.open()?);
    sheet.keep(second.take().unwrap()).unwrap();
    Ok(())
}

/// What a settle would answer with one pinch more: both are made in a try, which is struck. None where no try can be opened.
pub(crate) fn try_out(
    sheet: &mut Sheet<CounterBook>,
    line: u32,
    lo: u32,
    hi: u32,
) -> Option<Settled> {
    let ticket = sheet.open().ok()?;
    let _ = sheet.pinch(line, lo, hi);
    let settled = sheet.settle(100_000);
    sheet.strike(ticket).unwrap();
    settled.ok()
}
