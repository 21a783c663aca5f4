// Settle (document 01, 'Calls on the archive'): the amounts of one measure into a lent list.
#![tactic(auto)]

ghost use Rattle.std.specs.Prelude.{◌≡◌, ◌≤◌, min, length};
ghost use Rattle.rules.specs.Promises.{Settles};
ghost use Rattle.settle.specs.Answers.{answered};

use carry::Divisor;
use rules::Refusal;
use units::WattHour;

// Count of quarters, total and links followed.
#[derive(Clone, Copy)]
pub struct Settled {
    pub count: u64,
    pub total: WattHour,
    pub links: u64,
}

// Nothing lent is written before every test has passed; then the amounts are booked from a sheet of so many places into the list. The sheet
// has a place for each quarter that the list can take.
fn settle_by<const N: usize>(
    archive: &[u8],
    p: u64,
    k: u64,
    list: &mut [i64],
) -> Result<Settled, Refusal>
    requires enough { min (length list.old) 2976 ≤ N }
    requires few { N ≤ 2976 }
    ensures { Settles archive.now p k list.old list.new (answered result) }
{
    let mut sheet = [0u64; N];
    let measure = prepare::prepare(archive, p, k, &mut sheet)?;
    let count = measure.count as usize;
    if list.len() < count {
        return Err(Refusal::NoRoom);
    }
    let divisor = Divisor::for_count(measure.denominator, count);
    let total = booking::book_all(measure.direction, divisor, &sheet[..count], list);
    Ok(Settled {
        count: measure.count,
        total,
        links: measure.links,
    })
}

// Plant place p and measure place k, both counted from 1 along their chains. A list for a day needs only a short sheet, which is sooner
// cleared.
pub fn settle(archive: &[u8], p: u64, k: u64, list: &mut [i64]) -> Result<Settled, Refusal>
    ensures { Settles archive.now p k list.old list.new (answered result) }
{
    if list.len() <= 96 {
        return settle_by::<96>(archive, p, k, list);
    }
    settle_by::<2976>(archive, p, k, list)
}
