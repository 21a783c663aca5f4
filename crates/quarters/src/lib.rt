// One walk over a measure's quarters (documents 01, 'Calls on the archive', and 02, 1 and 3): each is tested and counted, and its exact magnitude
// is written into a sheet.
#![tactic(auto)]

ghost use Rattle.std.specs.Prelude.{◌≡◌, ◌&&◌, ℕ, [], ◌+◌, ◌≤◌, ◌<◌, leb};
ghost use Rattle.rules.specs.Reference as book;
ghost use Rattle.rules.specs.Results.{outcome};
ghost use Rattle.rules.specs.Settle.{dates_allowed, Basis};
ghost use Rattle.rules.specs.Terms as book_terms;
ghost use Rattle.rules.proofs.Bounds as bounds;
ghost use Rattle.terms.specs.Meanings.{meaning};
ghost use Rattle.place.specs.Places.{meant, Lies};
ghost use Rattle.reference.specs.References.{Means, Divided};
ghost use Rattle.reference.specs.declared.Reference.TheVariants.{ByFactor, LastMeasured};
ghost use Rattle.reference.specs.Manners.{Fits};
ghost use Rattle.exact.specs.Exacts.{quarter_answer};
ghost use Rattle.quarters.specs.Readers.{IsPlain, IsDated, IsBounded};
ghost use Rattle.quarters.specs.Walks.{is_in_range, entered, answer_at_end, WalkedBy, Walks};

use calendar::Clock;
use chains::Chain;
use place::Place;
use record::Record;
use reference::{Manner, Reference};
use rules::{Bounding, Refusal, kind};
use terms::Terms;
use units::Watt;

// A magnitude goes to its place of the sheet, if the sheet has that place; the answer is whether it is in range, which the
// walk needs at its end.
fn enter(sheet: &mut [u64], count: usize, magnitude: Option<u64>) -> bool
    ensures { (result ≡ is_in_range magnitude) × (sheet.new ≡ entered sheet.old count magnitude) }
{
    let Some(m) = magnitude else {
        return false;
    };
    if sheet.len() <= count {
        return true;
    }
    sheet[count] = m;
    true
}

// 1 to 2,976 quarters.
fn in_count_range(count: usize) -> bool
    ensures { result ≡ (leb 1 count && leb count 2976) }
{
    (1..=2976).contains(&count)
}

// A dated measure's last of so many quarters isn't past the calendar's end, and so neither is the first.
fn in_calendar(terms: Terms, count: usize) -> bool
    requires { (1 ≤ count) × (count ≤ 2976) }
    ensures { result ≡ dates_allowed (meaning terms) count }
{
    let first = terms.first;
    (first.0 == 0) | (first.0 <= calendar::LAST_QUARTER - (count as u64 - 1))
}

// At the chain's end: 8, then 9, then 18. `fine`, whether every quarter was in range, is a truth by itself: 8, which only the count at the
// chain's end tells, comes before 9, so no quarter can end the walk with a refusal.
#[tactic(auto, unfolding(crate::specs::Walks::answer_at_end))]
fn answer_at_end(terms: Terms, count: usize, fine: bool) -> Result<u64, Refusal>
    ensures { outcome result ≡ answer_at_end (meaning terms) count fine }
{
    if !in_count_range(count) {
        return Err(Refusal::BadCount);
    }
    if !fine {
        return Err(Refusal::OutOfRange);
    }
    if !in_calendar(terms, count) {
        return Err(Refusal::NotInCalendar);
    }
    Ok(count as u64)
}

// What a measure's quarters are read by, one after another.
trait Quarters {
    // the measure's terms, and the references that this stands for
    ghost terms: { Self → book_terms.Terms };

    ghost means: { Self → book.Reference → Type 0 };

    // what holds before the quarter with an index along the chain
    ghost ready: { Self → ℕ → Type 0 };

    // From a quarter's index and its record: its exact magnitude, if what is needed of it is in range.
    fn exact(&mut self, index: u64, r: &Record) -> Option<u64>
        requires few { index < 65536 }
        requires at_index { ready self.old index }
        ensures magnitude { (ref : book.Reference) → means self.old ref
            → result ≡ quarter_answer (terms self.old) ref (book_terms.quarter_of (terms self.old) index r.now) }
        ensures goes_on { ready self.new (index + 1) }
        ensures same_terms { terms self.new ≡ terms self.old }
        ensures same_means { (ref : book.Reference) → means self.old ref → means self.new ref };
}

// Where T isn't found by the date, and nothing bounds it or L.
#[derive(Drop)]
struct Plain<'a> {
    terms: Terms,
    reference: Reference,
    d: u64,
    powers: &'a [u32],
}

impl<'a> Quarters for Plain<'a> {
    ghost terms = { λ s. meaning s.terms };

    ghost means = { λ s ref. Means s.reference s.powers.now ref };

    ghost ready = { λ s _. IsPlain s.reference s.d s.powers.now (meaning s.terms) };

    fn exact(&mut self, index: u64, r: &Record) -> Option<u64> {
        exact::exact_of(self.terms, index, self.reference, self.d, self.powers, r)
    }
}

// Where T is found by the date, in solar Pauschal: a clock goes along.
#[derive(Drop)]
struct Dated {
    terms: Terms,
    clock: Clock,
    pn: Watt,
    d: u64,
}

impl Quarters for Dated {
    ghost terms = { λ s. meaning s.terms };

    ghost means = { λ s ref. Means (ByFactor s.pn) [] ref };

    ghost ready = { λ s index. IsDated s.pn s.d (meaning s.terms) index s.clock };

    fn exact(&mut self, index: u64, r: &Record) -> Option<u64> {
        let clock = self.clock;
        self.clock = calendar::after(clock, index + 1);
        exact::exact_by_date(self.terms, index, clock, self.pn, self.d, r)
    }
}

// Where readings of the quarters bound T, which is P0, or L: wind and other Pauschal from October 2026 on (document 02, 3).
#[derive(Drop)]
struct Bounded {
    terms: Terms,
    bounding: Bounding,
    p0: Watt,
}

impl Quarters for Bounded {
    ghost terms = { λ s. meaning s.terms };

    ghost means = { λ s ref. Means (LastMeasured s.p0) [] ref };

    ghost ready = { λ s _. IsBounded s.p0 s.bounding (meaning s.terms) };

    fn exact(&mut self, _index: u64, r: &Record) -> Option<u64> {
        exact::exact_bounded(self.terms, self.bounding, self.p0, r)
    }
}

// The chain is walked to its end, however long, before the tests there. A sheet of any length will do: a magnitude that has no place
// there is tested and counted only.
fn walk_by<Q: Quarters>(
    archive: &[u8],
    place: Place,
    quarters: &mut Q,
    sheet: &mut [u64],
) -> Result<u64, Refusal>
    requires lies { Lies archive.now place }
    requires of_place { Q.terms quarters.old ≡ meaning place.terms }
    requires at_first { Q.ready quarters.old 0 }
    requires bounded { (ref : book.Reference) → Q.means quarters.old ref → bounds.Bounded ref }
    ensures { (basis : Basis) → Q.means quarters.old basis.reference → WalkedBy archive.now (meant archive.now place) basis sheet.new result }
{
    let mut count: usize = 0;
    let mut fine = true;
    let first = record::link_of(archive, place.measure, 12);
    for step in Chain::starting(archive, place.used, kind::QUARTER, place.measure, first) {
        let n = step?;
        let r = record::record_at(archive, n);
        let magnitude = quarters.exact(count as u64, r);
        fine = enter(sheet, count, magnitude) & fine;
        count += 1;
    }
    answer_at_end(place.terms, count, fine)
}

// The quarters of a measure, with a clock, with readings that bound or with neither; d is D. The count of quarters, or 2, 3, 8, 9 or 18.
pub fn walk(
    archive: &[u8],
    place: Place,
    reference: Reference,
    d: u64,
    powers: &[u32],
    sheet: &mut [u64],
) -> Result<u64, Refusal>
    requires lies { Lies archive.now place }
    requires divided { Divided reference d powers.now }
    requires fits { Fits reference (meaning place.terms) }
    ensures { Walks archive.now place reference powers.now sheet.new result }
{
    let terms = place.terms;
    match reference::manner_of(reference, terms) {
        Manner::Plain => {
            let mut plain = Plain {
                terms,
                reference,
                d,
                powers,
            };
            walk_by(archive, place, &mut plain, sheet)
        }
        Manner::ByDate(pn) => {
            let clock = calendar::clock_of(terms.first);
            let mut dated = Dated {
                terms,
                clock,
                pn,
                d,
            };
            walk_by(archive, place, &mut dated, sheet)
        }
        Manner::Bounded(bounding, p0) => {
            let mut bounded = Bounded {
                terms,
                bounding,
                p0,
            };
            walk_by(archive, place, &mut bounded, sheet)
        }
    }
}
