// The terms of a measure: what its plant and it say, from their own 32 bytes each, read once (documents 01, 'The archive', and 02, 1).
#![tactic(auto)]

ghost use Rattle.std.specs.Prelude.{◌≡◌, pos, IfOk};
ghost use Rattle.rules.specs.Terms.{technology_of, variant_of, plant_allowed, direction_of, execution_of, measure_allowed};
ghost use Rattle.rules.specs.Numbers.{or_zero};
ghost use Rattle.rules.specs.Settle.{admitted};
ghost use Rattle.rules.specs.October.{bounding_of};
ghost use Rattle.rules.specs.Results.{outcome_by};
ghost use Rattle.terms.specs.Meanings.{meaning};

use record::Record;
use rules::{Bounding, Direction, Execution, Refusal, Technology, Variant};
use units::{QuarterNumber, Watt};

// Handed on as one value; nothing of plant and measure is read again.
#[derive(Clone, Copy)]
pub struct Terms {
    pub nominal: Watt,
    pub technology: Technology,
    pub variant: Variant,
    pub direction: Direction,
    pub execution: Execution,
    // number of the first quarter, or 0 for a measure without a date, as in the format and in the book
    pub first: QuarterNumber,
}

// ---- plant

// The bytes are tested by plant_allowed and measure_allowed, as the book does it, and read by functions that always give an answer, as the
// book's do: TryFrom<u8> would test them a second time.
fn technology_of(plant: &Record) -> Technology
    ensures { result ≡ technology_of plant.now }
{
    match plant[1] {
        1 => Technology::Wind,
        2 => Technology::Solar,
        _ => Technology::Other,
    }
}

fn variant_of(plant: &Record) -> Variant
    ensures { result ≡ variant_of plant.now }
{
    match plant[2] {
        1 => Variant::Spitz,
        _ => Variant::Pauschal,
    }
}

// What refusal 6 tests, in every technology and variant.
#[tactic(auto, unfolding(rules::specs::Terms::plant_allowed))]
fn plant_allowed(plant: &Record) -> bool
    ensures { result ≡ plant_allowed plant.now }
{
    matches!(plant[1], 1..=3)
        && matches!(plant[2], 1..=2)
        && units::is_nominal_power(record::watt_at(plant, 16))
}

// ---- measure

fn direction_of(measure: &Record) -> Direction
    ensures { result ≡ direction_of measure.now }
{
    match measure[1] {
        1 => Direction::Positive,
        _ => Direction::Negative,
    }
}

fn execution_of(measure: &Record) -> Execution
    ensures { result ≡ execution_of measure.now }
{
    match measure[2] {
        1 => Execution::Requested,
        2 => Execution::Tolerated,
        _ => Execution::Fixed,
    }
}

// What refusal 7 tests; positive redispatch exists for technology 3 only.
#[tactic(auto, unfolding(rules::specs::Terms::measure_allowed))]
fn measure_allowed(plant: &Record, measure: &Record) -> bool
    ensures { result ≡ measure_allowed plant.now measure.now }
{
    matches!(measure[1], 1..=2) && matches!(measure[2], 1..=3) && (measure[1] == 2 || plant[1] == 3)
}

// ---- both

// 6, then 7.
pub fn admit(plant: &Record, measure: &Record) -> Result<Terms, Refusal>
    ensures terms { outcome_by meaning result ≡ admitted plant.now measure.now }
    ensures nominal { IfOk result (λ terms. terms.nominal.0 ≡ pos (or_zero terms.nominal.0)) }
{
    if !plant_allowed(plant) {
        return Err(Refusal::BadPlant);
    }
    if !measure_allowed(plant, measure) {
        return Err(Refusal::BadMeasure);
    }
    Ok(Terms {
        nominal: record::watt_at(plant, 16),
        technology: technology_of(plant),
        variant: variant_of(plant),
        direction: direction_of(measure),
        execution: execution_of(measure),
        first: QuarterNumber(record::link_at(measure, 16)),
    })
}

// ---- the rules of October 2026 (document 02, 3)

// Number of the first quarter-hour of 1 October 2026.
const OCTOBER_2026: u64 = 937921;

// What the readings of the measure's quarters bound. Its first quarter decides for all of them.
#[tactic(auto, unfolding(rules::specs::October::bounding_of))]
pub fn bounding_of(terms: Terms) -> Bounding
    ensures { result ≡ bounding_of (meaning terms) }
{
    if terms.first.0 < OCTOBER_2026 {
        return Bounding::Unbounded;
    }
    match (terms.variant, terms.technology, terms.direction) {
        (Variant::Spitz, _, _) => Bounding::Unbounded,
        (Variant::Pauschal, Technology::Wind, _) => Bounding::ReferenceByBoth,
        (Variant::Pauschal, Technology::Solar, _) => Bounding::Unbounded,
        (Variant::Pauschal, Technology::Other, Direction::Positive) =>
            Bounding::LimitationByNonavailability,
        (Variant::Pauschal, Technology::Other, Direction::Negative) =>
            Bounding::ReferenceByNonavailability,
    }
}
