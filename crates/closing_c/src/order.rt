// By order.
ghost use Rattle.std.specs.Prelude.{◌≡◌, true, false, length};
ghost use Rattle.catalogue.specs.Refusals.{answer};
ghost use Rattle.closing_c.specs.Statuses.{SheetSorted, order_of, order_sorts, read, sheet_closing_leaves, status};

use catalogue::{Make, Refusal, Sheet};
use closing::{PackageRecord, by_order};
use labels::Minutes;

// The records are sorted, too, where a chain that leads back to its start is refused.
#[unsafe(no_mangle)]
pub extern "C" fn minutes_by_order(
    sheet: &[u8],
    table: &mut [Minutes],
    records: &mut [PackageRecord],
    words: &mut [u32],
) -> u32
    ensures tells { result ≡ status (order_of sheet.now (length table.old) (length records.old) (length words.old)) }
    ensures leaves { table.new ≡ sheet_closing_leaves (read sheet.now) (order_of sheet.now (length table.old) (length records.old) (length words.old)) table.old }
    ensures sorts { order_sorts (read sheet.now) (length table.old) (length records.old) (length words.old) ≡ true → SheetSorted (read sheet.now) records.old records.new }
    ensures keeps { order_sorts (read sheet.now) (length table.old) (length records.old) (length words.old) ≡ false → (records.new ≡ records.old) × (words.new ≡ words.old) }
{
    match close(sheet, table, records, words) {
        Ok(()) => 0,
        Err(refusal) => refusal.into(),
    }
}

fn close(
    sheet: &[u8],
    table: &mut [Minutes],
    records: &mut [PackageRecord],
    words: &mut [u32],
) -> Result<(), Refusal>
    ensures answers { answer result ≡ order_of sheet.now (length table.old) (length records.old) (length words.old) }
    ensures leaves { table.new ≡ sheet_closing_leaves (read sheet.now) (answer result) table.old }
    ensures sorts { order_sorts (read sheet.now) (length table.old) (length records.old) (length words.old) ≡ true → SheetSorted (read sheet.now) records.old records.new }
    ensures keeps { order_sorts (read sheet.now) (length table.old) (length records.old) (length words.old) ≡ false → (records.new ≡ records.old) × (words.new ≡ words.old) }
{
    let catalogue = Sheet::<Minutes>::make(sheet)?;
    by_order(&catalogue, table, records, words)
}
