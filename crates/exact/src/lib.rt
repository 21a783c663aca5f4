// The exact magnitude of a quarter (document 01, 'Exact magnitude'): its numerator over 4 × D.
#![tactic(auto)]

ghost use Rattle.std.specs.Prelude.{◌≡◌, [], ◌≤◌};
ghost use Rattle.std.specs.Int.Signed.{mag};
ghost use Rattle.rules.specs.Numbers.{or_zero};
ghost use Rattle.rules.specs.Terms.{Quarter, quarter_of};
ghost use Rattle.rules.specs.October.{bounding_of};
ghost use Rattle.rules.specs.Reference as book;
ghost use Rattle.rules.specs.Reference.{magnitude as magnitude_of};
ghost use Rattle.terms.specs.Meanings.{meaning};
ghost use Rattle.reference.specs.References.{Means, Divided};
ghost use Rattle.reference.specs.Manners.{manner_of, Shows};
ghost use Rattle.exact.specs.Exacts.{Room, ReadFrom, quarter_answer};

use calendar::Clock;
use record::Record;
use reference::{Manner, Reference};
use rules::{Bounding, Direction};
use terms::Terms;
use units::Watt;

fn or_zero(n: i64) -> u64
    ensures { result ≡ or_zero n }
{
    n.max(0) as u64
}

// Of (T - L) / 4, in the positive direction of (L - T) / 4, where T is t / d; or 0.
fn magnitude(direction: Direction, d: u64, t: i64, l: Watt) -> u64
    requires { Room d t l.0 }
    ensures { result ≡ magnitude_of direction d t l.0 }
{
    let limit = l.0 * d as i64;
    match direction {
        Direction::Positive => or_zero(limit - t),
        Direction::Negative => or_zero(t - limit),
    }
}

// ---- a quarter's answer: one function for each way to T, since each asks for something else; L's and the magnitude's are the same

// Of a measure's quarter, from its index along the chain and its own 32 bytes; d is D, which all quarters of a measure share. Nothing
// bounds T or L.
#[tactic(auto, unfolding(rules::specs::Terms::quarter_of))]
pub fn exact_of(
    terms: Terms,
    index: u64,
    reference: Reference,
    d: u64,
    powers: &[u32],
    r: &Record,
) -> Option<u64>
    requires divided { Divided reference d powers.now }
    requires value { Manner.Plain ≡ manner_of reference (meaning terms) }
    requires value_2 { Bounding.Unbounded ≡ bounding_of (meaning terms) }
    ensures { (ref : book.Reference) → Means reference powers.now ref
        → result ≡ quarter_answer (meaning terms) ref (quarter_of (meaning terms) index r.now) }
{
    let l = limitation::limit_of(terms, r)?;
    let t = reference::numerator_of(reference, powers, terms, index, r)?;
    Some(magnitude(terms.direction, d, t, l))
}

// Of a dated measure's quarter, solar Pauschal: by its clock.
#[tactic(auto, unfolding(rules::specs::Terms::quarter_of))]
pub fn exact_by_date(
    terms: Terms,
    index: u64,
    clock: Clock,
    pn: Watt,
    d: u64,
    r: &Record,
) -> Option<u64>
    requires divided { Divided (Reference.ByFactor pn) d [] }
    requires shows { Shows (meaning terms) index clock }
    requires value { Bounding.Unbounded ≡ bounding_of (meaning terms) }
    ensures { result ≡ quarter_answer (meaning terms) (book.by_factor (or_zero pn.0)) (quarter_of (meaning terms) index r.now) }
{
    let l = limitation::limit_of(terms, r)?;
    let t = reference::numerator_by_date(pn, terms, index, clock, r);
    Some(magnitude(terms.direction, d, t, l))
}

// Of a quarter of wind or other Pauschal, with the readings that bound T, which is P0, or L from October 2026 on (document 02, 3).
pub fn exact_bounded(terms: Terms, bounding: Bounding, p0: Watt, r: &Record) -> Option<u64>
    requires p0_bound { mag p0.0 ≤ 1000000000 }
    requires bounding_value { bounding ≡ bounding_of (meaning terms) }
    ensures { (q : Quarter) → ReadFrom r.now q → result ≡ quarter_answer (meaning terms) (book.last_measured p0.0) q }
{
    let l = limitation::limit_of(terms, r)?;
    let t = reference::lowest(bounding, p0, r)?;
    let limit = limitation::bounded(bounding, l, r)?;
    Some(magnitude(terms.direction, 1, t.0, limit))
}
