// Sort.
ghost use Rattle.std.specs.Prelude.{◌≡◌, true, false, is_ok, length};
ghost use Rattle.std.specs.Result.{result_unwrap_or};
ghost use Rattle.catalogue.specs.Refusals.{answer};
ghost use Rattle.closing_c.specs.Statuses.{SheetSorted, read, sort_of, status};

use catalogue::{Make, Refusal, Sheet};
use closing::PackageRecord;
use labels::Minutes;

// `groups` gets the number of groups; a refused call leaves it, the records and the words.
#[unsafe(no_mangle)]
pub extern "C" fn sort_minutes(
    sheet: &[u8],
    records: &mut [PackageRecord],
    words: &mut [u32],
    groups: &mut u32,
) -> u32
    ensures tells { result ≡ status (sort_of sheet.now (length records.old) (length words.old)) }
    ensures counts { groups.new ≡ result_unwrap_or (sort_of sheet.now (length records.old) (length words.old)) groups.old }
    ensures sorts { is_ok (sort_of sheet.now (length records.old) (length words.old)) ≡ true → SheetSorted (read sheet.now) records.old records.new }
    ensures keeps { is_ok (sort_of sheet.now (length records.old) (length words.old)) ≡ false → (records.new ≡ records.old) × (words.new ≡ words.old) }
{
    match sort(sheet, records, words) {
        Ok(count) => {
            *groups = count;
            0
        }
        Err(refusal) => refusal.into(),
    }
}

fn sort(sheet: &[u8], records: &mut [PackageRecord], words: &mut [u32]) -> Result<u32, Refusal>
    ensures answers { answer result ≡ sort_of sheet.now (length records.old) (length words.old) }
    ensures sorts { is_ok (answer result) ≡ true → SheetSorted (read sheet.now) records.old records.new }
    ensures keeps { is_ok (answer result) ≡ false → (records.new ≡ records.old) × (words.new ≡ words.old) }
{
    let catalogue = Sheet::<Minutes>::make(sheet)?;
    closing::sort(&catalogue, records, words)
}
