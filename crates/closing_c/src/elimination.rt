// By elimination.
ghost use Rattle.std.specs.Prelude.{◌≡◌, length};
ghost use Rattle.catalogue.specs.Refusals.{answer};
ghost use Rattle.closing_c.specs.Statuses.{read, elimination_of, sheet_closing_leaves, status};

use catalogue::{Make, Refusal, Sheet};
use closing::by_elimination;
use labels::Minutes;

#[unsafe(no_mangle)]
pub extern "C" fn minutes_by_elimination(sheet: &[u8], table: &mut [Minutes]) -> u32
    ensures tells { result ≡ status (elimination_of sheet.now (length table.old)) }
    ensures leaves { table.new ≡ sheet_closing_leaves (read sheet.now) (elimination_of sheet.now (length table.old)) table.old }
{
    match close(sheet, table) {
        Ok(()) => 0,
        Err(refusal) => refusal.into(),
    }
}

fn close(sheet: &[u8], table: &mut [Minutes]) -> Result<(), Refusal>
    ensures answers { answer result ≡ elimination_of sheet.now (length table.old) }
    ensures leaves { table.new ≡ sheet_closing_leaves (read sheet.now) (answer result) table.old }
{
    let catalogue = Sheet::<Minutes>::make(sheet)?;
    by_elimination(&catalogue, table)
}
