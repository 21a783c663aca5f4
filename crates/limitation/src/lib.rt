// The limitation value L of a quarter (Wert der Leistungslimitierung, 001, 3.1).
#![tactic(auto)]

ghost use Rattle.std.specs.Prelude.{◌≡◌, ◌≤◌};
ghost use Rattle.std.specs.Int.Signed.{mag};
ghost use Rattle.rules.specs.Archive.{field_at};
ghost use Rattle.rules.specs.Terms.{reading_at, Quarter};
ghost use Rattle.rules.specs.October.{limitation_bounds};
ghost use Rattle.rules.specs.Reference.{limitation as limitation_of};
ghost use Rattle.record.specs.Powers.{SmallestOf};
ghost use Rattle.terms.specs.Meanings.{meaning};
ghost use Rattle.limitation.specs.Limits.{LimitedTo};

use record::Record;
use rules::{Bounding, Direction, Execution};
use terms::Terms;
use units::Watt;

// From measured power and sent limit.
#[tactic(auto, unfolding(rules::specs::Reference::limitation))]
fn limitation(direction: Direction, execution: Execution, measured: Watt, limit: Watt) -> Watt
    ensures { result.0 ≡ limitation_of direction execution measured.0 limit.0 }
{
    match (execution, direction) {
        (Execution::Requested, Direction::Positive) => units::smaller(measured, limit),
        (Execution::Requested, Direction::Negative) => units::larger(measured, limit),
        (Execution::Tolerated | Execution::Fixed, _) => measured,
    }
}

// From a quarter's own 32 bytes: the measured power, and the limit where it is requested.
#[tactic(auto, unfolding(rules::specs::Reference::limitation))]
pub fn limit_of(terms: Terms, r: &Record) -> Option<Watt>
    ensures { LimitedTo (meaning terms) (field_at r.now 8) (field_at r.now 12) result }
{
    let measured = record::power_at(r, 8)?;
    match terms.execution {
        Execution::Requested => {
            let limit = record::power_at(r, 12)?;
            Some(limitation(terms.direction, terms.execution, measured, limit))
        }
        Execution::Tolerated | Execution::Fixed => Some(measured),
    }
}

// With the reading that bounds it from October 2026 on (document 02, 3): in other Pauschal, positive. What bounds L and the record that has the
// reading are one parameter each, as in exact and reference: the one is the measure's, the other the quarter's.
pub fn bounded(bounding: Bounding, l: Watt, r: &Record) -> Option<Watt>
    requires { mag l.0 ≤ 1000000000 }
    ensures { (q : Quarter) → q.nonavailability ≡ reading_at r.now 24 → SmallestOf (limitation_bounds bounding q) l.0 result }
{
    match bounding {
        Bounding::LimitationByNonavailability => record::bounded_at(l, r, 24),
        Bounding::Unbounded | Bounding::ReferenceByBoth | Bounding::ReferenceByNonavailability =>
            Some(l),
    }
}
