// The basis of a measure: how its T is found, and the links followed for that (document 01, 'Reference power T').
#![tactic(auto)]

ghost use Rattle.std.specs.Prelude.{◌≡◌, false};
ghost use Rattle.rules.specs.Settle.{basis_of};
ghost use Rattle.place.specs.Places.{meant, Lies};
ghost use Rattle.reference.specs.References.{Natural};
ghost use Rattle.comparison.specs.Sums.{Room};
ghost use Rattle.comparison.specs.declared.Purpose.TheVariants.{Four, First, All};
ghost use Rattle.basis.specs.Bases.{needs_curve, ground_of, Lent, ForCurve, ComparisonReady, PnNatural, OnSums, Compared, Finds};

use comparison::{Purpose, Sums};
use curve::Curve;
use place::Place;
use reference::Reference;
use rules::{Refusal, Technology, Variant};
use terms::Terms;
use units::{Irradiance, Watt};

#[derive(Clone, Copy)]
pub struct Basis {
    pub links: u64,
    pub reference: Reference,
}

// T is read from the plant's curve.
pub fn needs_curve(terms: Terms) -> bool
    ensures { result ≡ needs_curve terms.technology terms.variant }
{
    match (terms.technology, terms.variant) {
        (Technology::Wind, Variant::Spitz) => true,
        (Technology::Wind, Variant::Pauschal) => false,
        (Technology::Solar, _) | (Technology::Other, _) => false,
    }
}

// ---- on the before-quarters

// Three functions: they ask for another count, two of them for a divisor, and each makes another reference, so one for all would be their
// three bodies behind a switch.

// Wind Spitz: 11, then 12.
fn on_four(pn: Watt, curve: Curve, four: Sums, links: u64) -> Result<Basis, Refusal>
    requires room { Room four }
    requires natural { Natural pn.0 }
    ensures { OnSums (Four pn curve) four links result }
{
    if four.used != 4 {
        return Err(Refusal::TooFewUsable);
    }
    if four.b == 0 {
        return Err(Refusal::DivisorZero);
    }
    let a = units::lowered(four.a, 4000000000);
    let b = units::lowered(four.b, 0);
    Ok(Basis {
        links,
        reference: Reference::OnCurve { a, b, pn, curve },
    })
}

// Wind and other Pauschal: 11.
fn on_first(first: Sums, links: u64) -> Result<Basis, Refusal>
    requires { Room first }
    ensures { OnSums First first links result }
{
    if first.used == 0 {
        return Err(Refusal::TooFewUsable);
    }
    let p0 = units::lowered(first.a, 1000000000);
    Ok(Basis {
        links,
        reference: Reference::LastMeasured(p0),
    })
}

// Solar Spitz: 11, then 12.
fn on_all(all: Sums, links: u64) -> Result<Basis, Refusal>
    requires { Room all }
    ensures { OnSums All all links result }
{
    if all.used == 0 {
        return Err(Refusal::TooFewUsable);
    }
    if all.b == 0 {
        return Err(Refusal::DivisorZero);
    }
    let a = units::lowered(all.a, 1000000000 * all.used);
    Ok(Basis {
        links,
        reference: Reference::OnIrradiance {
            a,
            b: Irradiance(all.b),
        },
    })
}

// By the purpose that the sums were gathered for. A switch and no closure: the purpose, a value of three kinds, is read here and by every
// before-quarter, and a function handed on for each would need both meanings said in one contract.
fn on_sums(purpose: Purpose, sums: Sums, links: u64) -> Result<Basis, Refusal>
    requires room { Room sums }
    requires pn_natural { PnNatural purpose }
    ensures { OnSums purpose sums links result }
{
    match purpose {
        Purpose::Four(pn, curve) => on_four(pn, curve, sums, links),
        Purpose::First => on_first(sums, links),
        Purpose::All => on_all(sums, links),
    }
}

// The before-quarters are gathered for a purpose; so many links were followed before them.
fn compared(
    archive: &[u8],
    place: Place,
    purpose: Purpose,
    powers: &[u32],
    before: u64,
) -> Result<Basis, Refusal>
    requires lies { Lies archive.now place }
    requires comparison_ready { ComparisonReady purpose powers.now before }
    ensures { Compared purpose archive.now (meant archive.now place) powers.now before result }
{
    let gathered = comparison::gather(archive, place, purpose, powers)?;
    on_sums(purpose, gathered.sums, before + gathered.count)
}

// ---- by technology and variant

// The basis of a measure that needs a curve: its points, whose powers are left in `powers`, a table of zeros; then the before-quarters.
fn on_curve(archive: &[u8], place: Place, powers: &mut [u32]) -> Result<Basis, Refusal>
    requires lies { Lies archive.now place }
    requires for_curve { ForCurve place.terms powers.old }
    ensures { Finds (basis_of archive.now (meant archive.now place)) powers.new result }
{
    let read = points::read_points(archive, place, powers)?;
    let purpose = Purpose::Four(place.terms.nominal, read.curve);
    compared(archive, place, purpose, powers, read.links)
}

// What a basis off the curve stands on: a comparison with before-quarters, or the terms alone.
#[derive(Clone, Copy)]
enum Ground {
    Comparison(Purpose),
    ByTerms(Reference),
}

fn ground_of(terms: Terms) -> Ground
    ensures { result ≡ ground_of terms.technology terms.variant terms.nominal }
{
    match (terms.technology, terms.variant) {
        (Technology::Wind, _) => Ground::Comparison(Purpose::First),
        (Technology::Solar, Variant::Spitz) => Ground::Comparison(Purpose::All),
        (Technology::Solar, Variant::Pauschal) => {
            Ground::ByTerms(Reference::ByFactor(terms.nominal))
        }
        (Technology::Other, Variant::Spitz) => Ground::ByTerms(Reference::AsPlanned),
        (Technology::Other, Variant::Pauschal) => Ground::Comparison(Purpose::First),
    }
}

// The basis of a measure that needs no curve; chains not needed aren't walked.
fn off_curve(archive: &[u8], place: Place, powers: &[u32]) -> Result<Basis, Refusal>
    requires lies { Lies archive.now place }
    requires variant_value { needs_curve place.terms.technology place.terms.variant ≡ false }
    ensures { Finds (basis_of archive.now (meant archive.now place)) powers.now result }
{
    match ground_of(place.terms) {
        Ground::Comparison(purpose) => compared(archive, place, purpose, powers, 0),
        Ground::ByTerms(reference) => Ok(Basis {
            links: 0,
            reference,
        }),
    }
}

// The basis of a measure. What is lent for the powers of a curve tells which it is: a table where the terms need one, no place elsewhere.
pub fn find(archive: &[u8], place: Place, powers: &mut [u32]) -> Result<Basis, Refusal>
    requires lies { Lies archive.now place }
    requires lent { Lent place.terms powers.old }
    ensures { Finds (basis_of archive.now (meant archive.now place)) powers.new result }
{
    if powers.is_empty() {
        return off_curve(archive, place, powers);
    }
    on_curve(archive, place, powers)
}
