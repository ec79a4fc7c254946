// By rounds.
ghost use Rattle.std.specs.Prelude.{◌≡◌, false, is_ok, length};
ghost use Rattle.std.specs.Result.{result_unwrap_or};
ghost use Rattle.catalogue.specs.Refusals.{answer};
ghost use Rattle.closing_c.specs.Statuses.{read, rounds_of, sheet_closing_leaves, status};

use catalogue::{Make, Refusal, Sheet};
use closing::by_rounds;
use labels::Minutes;

// `rounds` gets the rounds made; a refused call leaves it, and both spare tables.
#[unsafe(no_mangle)]
pub extern "C" fn minutes_by_rounds(
    sheet: &[u8],
    table: &mut [Minutes],
    changed: &mut [Minutes],
    found: &mut [Minutes],
    rounds: &mut usize,
) -> u32
    ensures tells { result ≡ status (rounds_of sheet.now (length table.old) (length changed.old) (length found.old)) }
    ensures counts { rounds.new ≡ result_unwrap_or (rounds_of sheet.now (length table.old) (length changed.old) (length found.old)) rounds.old }
    ensures leaves { table.new ≡ sheet_closing_leaves (read sheet.now) (rounds_of sheet.now (length table.old) (length changed.old) (length found.old)) table.old }
    ensures spares { is_ok (rounds_of sheet.now (length table.old) (length changed.old) (length found.old)) ≡ false → (changed.new ≡ changed.old) × (found.new ≡ found.old) }
{
    match close(sheet, table, changed, found) {
        Ok(made) => {
            *rounds = made;
            0
        }
        Err(refusal) => refusal.into(),
    }
}

fn close(
    sheet: &[u8],
    table: &mut [Minutes],
    changed: &mut [Minutes],
    found: &mut [Minutes],
) -> Result<usize, Refusal>
    ensures answers { answer result ≡ rounds_of sheet.now (length table.old) (length changed.old) (length found.old) }
    ensures leaves { table.new ≡ sheet_closing_leaves (read sheet.now) (answer result) table.old }
    ensures spares { is_ok (answer result) ≡ false → (changed.new ≡ changed.old) × (found.new ≡ found.old) }
{
    let catalogue = Sheet::<Minutes>::make(sheet)?;
    by_rounds(&catalogue, table, changed, found)
}
