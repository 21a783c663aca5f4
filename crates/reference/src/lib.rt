// The reference power T of a measure's quarters (document 01, 'Reference power T'): a numerator over one denominator D.
#![tactic(auto)]

ghost use Rattle.std.specs.Prelude.{◌≡◌, ◌≤◌, ◌<◌, Some};
ghost use Rattle.std.specs.Int.Signed.{mag};
ghost use Rattle.rules.specs.Numbers.{or_zero};
ghost use Rattle.rules.specs.Archive.{field_at};
ghost use Rattle.rules.specs.Terms.{Quarter, month_of, quarter_of_day_of, reading_at, quarter_of};
ghost use Rattle.rules.specs.October.{reference_bounds};
ghost use Rattle.rules.specs.Reference as book;
ghost use Rattle.record.specs.Powers.{SmallestOf};
ghost use Rattle.terms.specs.Meanings.{meaning};
ghost use Rattle.reference.specs.References.{Bounded, Held, Means, Divides, ReferredTo};
ghost use Rattle.reference.specs.Manners.{manner_of, Shows};

use calendar::Clock;
use curve::Curve;
use record::Record;
use rules::Bounding;
use terms::Terms;
use units::{Irradiance, Watt};

// How T is found, with what the plant and the before-quarters give. It is copied into a basis, so the table of a curve's powers stays beside it,
// and what bounds its numbers is a clause over both. Terms, index and record are a quarter of the book (`quarter_of`), of which each function
// reads what it needs; a struct of the three would name them again in every clause.
#[derive(Clone, Copy)]
pub enum Reference {
    // wind Spitz, whose curve's powers are lent beside it
    OnCurve {
        a: Watt,
        b: Watt,
        pn: Watt,
        curve: Curve,
    },
    // wind and other Pauschal: P0
    LastMeasured(Watt),
    // solar Spitz
    OnIrradiance {
        a: Watt,
        b: Irradiance,
    },
    // solar Pauschal: Pn
    ByFactor(Watt),
    // other Spitz
    AsPlanned,
}

// D, the one denominator of every T of the measure.
pub fn denominator(reference: Reference) -> u64
    requires { Bounded reference }
    ensures { Divides reference result }
{
    match reference {
        Reference::OnCurve { b, .. } => units::unsigned(b),
        Reference::OnIrradiance { b, .. } => b.0,
        Reference::ByFactor(_) => 10000,
        Reference::LastMeasured(_) | Reference::AsPlanned => 1,
    }
}

// ---- month and quarter of the day

// Of a measure without a date: the quarter's own. Two functions of a byte each, as the book has two names for them, with its parameters.
fn month_of(terms: Terms, index: u64, r: &Record) -> u64
    requires { (meaning terms).first ≡ 0 }
    ensures { result ≡ month_of (meaning terms) index r.now }
{
    u64::from(r[1])
}

fn quarter_of_day_of(terms: Terms, index: u64, r: &Record) -> u64
    requires { (meaning terms).first ≡ 0 }
    ensures { result ≡ quarter_of_day_of (meaning terms) index r.now }
{
    u64::from(r[2])
}

// How a measure's quarters are walked: plainly; by the date, in solar Pauschal that has one (document 02, 1); with readings that bound T or
// L, in Pauschal of wind and other plants from October 2026 on (document 02, 3).
#[derive(Clone, Copy)]
pub enum Manner {
    Plain,
    // Pn
    ByDate(Watt),
    // P0
    Bounded(Bounding, Watt),
}

pub fn manner_of(reference: Reference, terms: Terms) -> Manner
    ensures { result ≡ manner_of reference (meaning terms) }
{
    match reference {
        Reference::LastMeasured(p0) => match terms::bounding_of(terms) {
            Bounding::Unbounded => Manner::Plain,
            bounding => Manner::Bounded(bounding, p0),
        },
        Reference::ByFactor(pn) if terms.first.0 != 0 => Manner::ByDate(pn),
        Reference::OnCurve { .. }
        | Reference::OnIrradiance { .. }
        | Reference::ByFactor(_)
        | Reference::AsPlanned => Manner::Plain,
    }
}

// ---- the numerator of T over D

// Wind Spitz: A × curve power, capped at Pn × B.
#[tactic(auto, unfolding(rules::specs::Archive::field_at))]
fn on_curve(a: Watt, b: Watt, pn: Watt, curve: Curve, powers: &[u32], r: &Record) -> Option<i64>
    requires held { Held (Reference.OnCurve a b pn curve) powers.now }
    ensures { (ref : book.Reference) (q : Quarter) → Means (Reference.OnCurve a b pn curve) powers.now ref
        → q.weather ≡ field_at r.now 16 → ReferredTo ref q result }
{
    let word = record::link_at(r, 16);
    if !units::is_speed(word) {
        return None;
    }
    let power = curve::power_at(curve, powers, units::speed_of(word));
    Some((a.0 * power.0).min(pn.0 * b.0))
}

// Solar Spitz: A × irradiance.
#[tactic(auto, unfolding(rules::specs::Archive::field_at))]
fn on_irradiance(a: Watt, b: Irradiance, r: &Record) -> Option<i64>
    requires bounded { Bounded (Reference.OnIrradiance a b) }
    ensures { (q : Quarter) → q.weather ≡ field_at r.now 16 → ReferredTo (book.on_irradiance a.0 b.0) q result }
{
    let word = record::link_at(r, 16);
    if !units::is_irradiance(word) {
        return None;
    }
    let g = units::irradiance_of(word).0;
    Some(a.0 * g as i64)
}

// Solar Pauschal: Pn × factor.
#[tactic(auto, using(rules::proofs::Bounds::factor_small))]
fn times_factor(pn: Watt, month: u64, quarter: u64) -> i64
    requires bounded { Bounded (Reference.ByFactor pn) }
    requires le_month { (1 ≤ month) × (month ≤ 12) × (quarter ≤ 95) }
    ensures { (q : Quarter) → month ≡ q.month → quarter ≡ q.quarter_of_day → ReferredTo (book.by_factor (or_zero pn.0)) q (Some result) }
{
    pn.0 * factor::plant_factor(month, quarter) as i64
}

fn by_factor(pn: Watt, month: u64, quarter: u64) -> Option<i64>
    requires { Bounded (Reference.ByFactor pn) }
    ensures { (q : Quarter) → month ≡ q.month → quarter ≡ q.quarter_of_day → ReferredTo (book.by_factor (or_zero pn.0)) q result }
{
    if !((1..=12).contains(&month) && quarter <= 95) {
        return None;
    }
    Some(times_factor(pn, month, quarter))
}

// Other Spitz: the planned power.
#[tactic(auto, unfolding(rules::specs::Reference::numerator))]
fn as_planned(r: &Record) -> Option<i64>
    ensures { (q : Quarter) → q.planned ≡ field_at r.now 20 → ReferredTo book.as_planned q result }
{
    let planned = record::power_at(r, 20)?;
    Some(planned.0)
}

// Of a measure's quarter, from its own 32 bytes; terms and index say which quarter the contract speaks of. A match and no closure: each
// variant has what its way to T needs, and Means says for each what it stands for.
#[tactic(auto, unfolding(rules::specs::Reference::numerator))]
pub fn numerator_of(
    reference: Reference,
    powers: &[u32],
    terms: Terms,
    index: u64,
    r: &Record,
) -> Option<i64>
    requires held { Held reference powers.now }
    requires value { Manner.Plain ≡ manner_of reference (meaning terms) }
    ensures { (ref : book.Reference) → Means reference powers.now ref
        → ReferredTo ref (quarter_of (meaning terms) index r.now) result }
{
    match reference {
        Reference::OnCurve { a, b, pn, curve } => on_curve(a, b, pn, curve, powers, r),
        Reference::LastMeasured(p0) => Some(p0.0),
        Reference::OnIrradiance { a, b } => on_irradiance(a, b, r),
        Reference::ByFactor(pn) => by_factor(
            pn,
            month_of(terms, index, r),
            quarter_of_day_of(terms, index, r),
        ),
        Reference::AsPlanned => as_planned(r),
    }
}

// Of a dated measure's quarter, solar Pauschal: by its clock, which is always in range; terms and r say which the contract speaks of.
pub fn numerator_by_date(pn: Watt, terms: Terms, index: u64, clock: Clock, r: &[u8]) -> i64
    requires bounded { Bounded (Reference.ByFactor pn) }
    requires shows { Shows (meaning terms) index clock }
    ensures { ReferredTo (book.by_factor (or_zero pn.0)) (quarter_of (meaning terms) index r.now) (Some result) }
{
    times_factor(pn, clock.date.month, 96 - (clock.until - index))
}

// ---- with the readings that bound T from October 2026 on (document 02, 3)

// T, which is P0, as they bound it: in wind Pauschal both, in other Pauschal, negative, nonavailability.
pub fn lowest(bounding: Bounding, p0: Watt, r: &Record) -> Option<Watt>
    requires { mag p0.0 ≤ 1000000000 }
    ensures { (q : Quarter) → q.nonavailability ≡ reading_at r.now 24 → q.market_adjustment ≡ reading_at r.now 28
        → SmallestOf (reference_bounds bounding q) p0.0 result }
{
    match bounding {
        Bounding::ReferenceByBoth => {
            let lower = record::bounded_at(p0, r, 24)?;
            record::bounded_at(lower, r, 28)
        }
        Bounding::ReferenceByNonavailability => record::bounded_at(p0, r, 24),
        Bounding::Unbounded | Bounding::LimitationByNonavailability => Some(p0),
    }
}
