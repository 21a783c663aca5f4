// The calls for the operator's host, written in C (documents 01, 'Calls on the archive', and 02); include/sandegmur.h declares them. By the
// C interface each gives a number, of its refusal or 0, and writes what else it finds into what is lent; lists and records are bytes, and
// places, an owner with its record, and the correction's three lists are parameters of their own.
#![tactic(auto)]

ghost use Rattle.std.specs.Prelude.{◌≡◌, ◌/◌, ◌≤◌, min, length, ◌++◌};
ghost use Rattle.rules.specs.Outcome.{number_of};
ghost use Rattle.rules.specs.Encoding.{double_word};
ghost use Rattle.rules.specs.Promises.{HostSettles, Freshens, Appends, TakesBack, HostPreviews, Audits, Delivers, HostCorrects};
ghost use Rattle.rules.specs.Results.{outcome};
ghost use Rattle.host.specs.Shown.{shown_place};

use carry::Divisor;
use rules::Refusal;
use rules::refusal::number_of;
use units::QuarterNumber;

// ---- settle

// The result part: count, total and links, 8 bytes each.
fn put_result(res: &mut [u8], count: u64, total: u64, links: u64)
    requires { length res.old ≡ 24 }
    ensures { res.new ≡ double_word count ++ (double_word total ++ double_word links) }
{
    writing::put_place(res, 0, count);
    writing::put_place(res, 1, total);
    writing::put_place(res, 2, links);
}

// Nothing lent is written before every test has passed: 13 last, for the list and for the result part. The sheet has a place for each
// quarter that the list can take. It is lent, and no array of a const parameter's size: with two such functions the compiler keeps tests and
// booking as calls in both, and a call for one quarter takes 77 ns where it takes 65. Not one function with settle::settle_by: the result
// part is tested before a byte of either is written, so the two differ in what is lent, in a test, and in the promise.
fn settle_on(
    archive: &[u8],
    p: u64,
    k: u64,
    list: &mut [u8],
    res: &mut [u8],
    sheet: &mut [u64],
) -> Result<(), Refusal>
    requires { min (length list.old / 8) 2976 ≤ length sheet.old }
    ensures { HostSettles archive.now p k list.old list.new
        res.old res.new (number_of (outcome result)) }
{
    let measure = prepare::prepare(archive, p, k, sheet)?;
    let count = measure.count as usize;
    if list.len() / 8 < count {
        return Err(Refusal::NoRoom);
    }
    if res.len() != 24 {
        return Err(Refusal::NoRoom);
    }
    let direction = measure.direction;
    let divisor = Divisor::for_count(measure.denominator, count);
    let total = booking::book_bytes(direction, divisor, &sheet[..count], list);
    put_result(
        res,
        measure.count,
        booking::bits_of(direction, total),
        measure.links,
    );
    Ok(())
}

// Plant place p and measure place k; the list has a place for every 8 of its bytes. One for a day needs only a short sheet.
#[unsafe(no_mangle)]
pub extern "C" fn sandegmur_settle(
    archive: &[u8],
    p: u64,
    k: u64,
    list: &mut [u8],
    res: &mut [u8],
) -> u32
    ensures { HostSettles archive.now p k list.old list.new
        res.old res.new result }
{
    if list.len() / 8 <= 96 {
        let mut sheet = [0u64; 96];
        return number_of(settle_on(archive, p, k, list, res, &mut sheet));
    }
    let mut sheet = [0u64; 2976];
    number_of(settle_on(archive, p, k, list, res, &mut sheet))
}

// The same entry by document 01's name, which gives way to a host's own function of that name.
#[unsafe(no_mangle)]
pub extern "C" fn settle(archive: &[u8], p: u64, k: u64, list: &mut [u8], res: &mut [u8]) -> u32
    ensures { HostSettles archive.now p k list.old list.new
        res.old res.new result }
{
    sandegmur_settle(archive, p, k, list, res)
}

// ---- the other calls

#[unsafe(no_mangle)]
pub extern "C" fn sandegmur_fresh(archive: &mut [u8]) -> u32
    ensures { Freshens archive.old archive.new result }
{
    number_of(filing::fresh(archive))
}

#[unsafe(no_mangle)]
pub extern "C" fn sandegmur_append(archive: &mut [u8], owner: u64, new: &[u8]) -> u32
    ensures { Appends archive.old owner new.now archive.new result }
{
    number_of(filing::append(archive, owner, new))
}

// The last record taken back (document 02, 2).
#[unsafe(no_mangle)]
pub extern "C" fn sandegmur_take_back(archive: &mut [u8]) -> u32
    ensures { TakesBack archive.old archive.new result }
{
    number_of(takeback::take_back(archive))
}

// What settle would give with one more record (document 02, 6). The archive is written to, and is as before when the call ends. Not one
// function with preview::preview, to which settle is passed: its clauses on what that may be called with are longer than these four steps.
#[unsafe(no_mangle)]
pub extern "C" fn sandegmur_preview(
    archive: &mut [u8],
    owner: u64,
    new: &[u8],
    p: u64,
    k: u64,
    list: &mut [u8],
    res: &mut [u8],
) -> u32
    ensures { HostPreviews archive.old owner new.now p k list.old list.new
        res.old res.new archive.new result }
{
    match preview::append_for_now(archive, owner, new) {
        Err(refusal) => refusal.number(),
        Ok(appended) => {
            let number = sandegmur_settle(archive, p, k, list, res);
            preview::undo(archive, appended);
            number
        }
    }
}

#[unsafe(no_mangle)]
pub extern "C" fn sandegmur_audit(archive: &[u8]) -> u32
    ensures { Audits archive.now result }
{
    number_of(audit::audit(archive))
}

// Where record `number` starts in the archive, or the archive's length where show gives the empty part.
#[unsafe(no_mangle)]
pub extern "C" fn sandegmur_show(archive: &[u8], number: u64) -> u64
    ensures { result ≡ shown_place archive.now number }
{
    let part = archive::show(archive, number);
    if part.is_empty() {
        return archive.len() as u64;
    }
    32 * number
}

// The delivery day of a quarter (document 02, 1) into a lent number: Monday to Friday, without the days of the list.
#[unsafe(no_mangle)]
pub extern "C" fn sandegmur_delivery_day(quarter: u64, holidays: &[u32], day: &mut u64) -> u32
    ensures { Delivers quarter holidays.now day.old day.new result }
{
    match calendar::delivery_day(QuarterNumber(quarter), holidays) {
        Err(refusal) => refusal.number(),
        Ok(found) => {
            *day = found.0;
            0
        }
    }
}

// The financial correction of three lists (document 02, 5) into two lent numbers.
#[unsafe(no_mangle)]
pub extern "C" fn sandegmur_correction(
    amounts: &[i64],
    balanced: &[i64],
    prices: &[i64],
    cents: &mut i64,
    remainder: &mut u64,
) -> u32
    ensures { HostCorrects amounts.now balanced.now prices.now
        cents.old cents.new remainder.old remainder.new result }
{
    match correction::correction(amounts, balanced, prices) {
        Err(refusal) => refusal.number(),
        Ok(money) => {
            *cents = money.cents;
            *remainder = money.remainder;
            0
        }
    }
}
