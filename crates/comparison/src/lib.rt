// The sums A and B over a measure's before-quarters, gathered in one walk along their chain (document 01, 'Reference power T').
#![tactic(auto)]

ghost use Rattle.std.specs.Prelude.{◌≡◌, List, ◌^◌, ◌<◌};
ghost use Rattle.rules.specs.Numbers.{or_zero};
ghost use Rattle.rules.specs.Archive.{link_at, field_at};
ghost use Rattle.rules.specs.Terms.{Point, before_of};
ghost use Rattle.rules.specs.Results.{outcome};
ghost use Rattle.record.specs.Powers.{PowerOf};
ghost use Rattle.curve.specs.Tables.{Tabulates};
ghost use Rattle.place.specs.Places.{meant, Lies};
ghost use Rattle.comparison.specs.Sums.{Choice, first_four, first_one, every_one, Means, Ready, FourReady, AllReady, MarkedReady};
ghost use Rattle.comparison.specs.Sums.{plus as plus_of, taken, added_answer, Room, RoomFor, RoomAdded};
ghost use Rattle.comparison.specs.Walks.{RoomIn, StepReady, Stepped, passed as passed_of, gathered_of, RoomGathered};

use chains::Chain;
use curve::Curve;
use place::Place;
use record::Record;
use rules::{Refusal, kind};
use units::Watt;

// What the sums are for. Wind Spitz: the first four marked ones whose measured power is 10 % of Pn or more; Pn, and the plant's
// curve, whose powers by speed are lent beside it. Wind and other Pauschal: the first marked one. Solar Spitz: all marked ones.
#[derive(Clone, Copy)]
pub enum Purpose {
    Four(Watt, Curve),
    First,
    All,
}

// The before-quarters used, and A and B over them. Every power in A is raised by 1,000,000,000, so that A isn't below zero. How large they may
// be is a clause (`Room`) and no invariant, since in a walk it follows from the walk's count (`RoomIn`). Sums and a record, and a purpose and
// the powers lent beside it, stay apart: the one is kept, the other read once.
#[derive(Clone, Copy)]
pub struct Sums {
    pub used: u64,
    pub a: u64,
    pub b: u64,
}

// The before-quarters met, and the sums; none once a field was out of range.
#[derive(Clone, Copy)]
pub struct Walk {
    count: u64,
    sums: Option<Sums>,
}

// All before-quarters of a measure: how many they are, and the sums.
#[derive(Clone, Copy)]
pub struct Gathered {
    pub count: u64,
    pub sums: Sums,
}

// ---- one before-quarter, from its own 32 bytes

fn measured_of(r: &Record) -> Option<Watt>
    ensures { PowerOf (field_at r.now 8) result }
{
    record::power_at(r, 8)
}

// The word of a speed or an irradiance.
fn weather_of(r: &Record) -> u64
    ensures { (result ≡ link_at r.now 16) × (result < 2 ^ 32) }
{
    record::link_at(r, 16)
}

// One more used.
fn plus(sums: Sums, a: u64, b: u64) -> Sums
    requires { RoomFor sums a b }
    ensures { result ≡ plus_of sums a b }
{
    Sums {
        used: sums.used + 1,
        a: sums.a + a,
        b: sums.b + b,
    }
}

// For wind Spitz. 10 × measured ≥ Pn is tested on the raised power.
fn add_four(pn: Watt, curve: Curve, powers: &[u32], sums: Sums, r: &Record) -> Option<Sums>
    requires { FourReady pn powers.now sums }
    ensures { ((points : List Point) → Tabulates curve powers.now points
        → result ≡ added_answer (taken (first_four (or_zero pn.0) points) sums (before_of r.now)))
        × RoomAdded sums result }
{
    if 4 <= sums.used {
        return Some(sums);
    }
    let measured = measured_of(r)?;
    let power = units::raised(measured);
    let least = units::unsigned(pn) + 10000000000;
    if 10 * power < least {
        return Some(sums);
    }
    let word = weather_of(r);
    if !units::is_speed(word) {
        return None;
    }
    let on_curve = curve::power_at(curve, powers, units::speed_of(word));
    Some(plus(sums, power, units::unsigned(on_curve)))
}

// For Pauschal; no 10 % test.
fn add_first(sums: Sums, r: &Record) -> Option<Sums>
    requires { Room sums }
    ensures { (result ≡ added_answer (taken first_one sums (before_of r.now))) × RoomAdded sums result }
{
    if sums.used != 0 {
        return Some(sums);
    }
    let measured = measured_of(r)?;
    Some(Sums {
        used: 1,
        a: units::raised(measured),
        b: 0,
    })
}

// For solar Spitz.
fn add_all(sums: Sums, r: &Record) -> Option<Sums>
    requires { AllReady sums }
    ensures { (result ≡ added_answer (taken every_one sums (before_of r.now))) × RoomAdded sums result }
{
    let measured = measured_of(r)?;
    let power = units::raised(measured);
    let word = weather_of(r);
    if !units::is_irradiance(word) {
        return None;
    }
    Some(plus(sums, power, units::irradiance_of(word).0))
}

// A marked one, by the purpose; a switch, as basis::on_sums is.
fn add_marked(purpose: Purpose, powers: &[u32], sums: Sums, r: &Record) -> Option<Sums>
    requires { MarkedReady purpose powers.now sums }
    ensures { ((choice : Choice) → Means purpose powers.now choice
        → result ≡ added_answer (taken choice sums (before_of r.now)))
        × RoomAdded sums result }
{
    match purpose {
        Purpose::Four(pn, curve) => add_four(pn, curve, powers, sums, r),
        Purpose::First => add_first(sums, r),
        Purpose::All => add_all(sums, r),
    }
}

// ---- the walk

// One more before-quarter. Once a field is out of range, or above 96, no more is added: 9 or 8 is the answer then.
fn step(purpose: Purpose, powers: &[u32], walk: Walk, r: &Record) -> Walk
    requires { StepReady purpose powers.now walk }
    ensures { Stepped purpose powers.now walk r.now result }
{
    let counted = Walk {
        count: walk.count + 1,
        ..walk
    };
    let Some(sums) = walk.sums else {
        return counted;
    };
    let mark = r[1];
    if 1 < mark {
        return Walk {
            sums: None,
            ..counted
        };
    }
    if mark != 1 {
        return counted;
    }
    if 96 <= walk.count {
        return counted;
    }
    Walk {
        sums: add_marked(purpose, powers, sums, r),
        ..counted
    }
}

// After the walk: 8, then 9.
fn passed(walk: Walk) -> Result<Gathered, Refusal>
    requires { RoomIn walk }
    ensures gathers { outcome result ≡ passed_of walk }
    ensures room { RoomGathered result }
{
    if 96 < walk.count {
        return Err(Refusal::BadCount);
    }
    let Some(sums) = walk.sums else {
        return Err(Refusal::OutOfRange);
    };
    Ok(Gathered {
        count: walk.count,
        sums,
    })
}

// The chain of before-quarters is walked whole (2, 3), then 8, then 9. `powers` are the curve's by speed; without a curve they are
// empty, and not read.
pub fn gather(
    archive: &[u8],
    place: Place,
    purpose: Purpose,
    powers: &[u32],
) -> Result<Gathered, Refusal>
    requires lies { Lies archive.now place }
    requires ready { Ready purpose powers.now }
    ensures gathers { (choice : Choice) → Means purpose powers.now choice
        → outcome result ≡ gathered_of choice archive.now (meant archive.now place) }
    ensures room { RoomGathered result }
{
    let mut walk = Walk {
        count: 0,
        sums: Some(Sums {
            used: 0,
            a: 0,
            b: 0,
        }),
    };
    let first = record::link_of(archive, place.measure, 8);
    for one in Chain::starting(archive, place.used, kind::BEFORE, place.measure, first) {
        let n = one?;
        walk = step(purpose, powers, walk, record::record_at(archive, n));
    }
    passed(walk)
}
