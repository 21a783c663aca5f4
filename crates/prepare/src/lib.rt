// Every test of a measure but that of the lent list (document 01, 'Calls on the archive'); its exact magnitudes into a sheet.
#![tactic(auto)]

ghost use Rattle.std.specs.Prelude.{◌≡◌, true, false};
ghost use Rattle.rules.specs.Settle.{basis_of, settled};
ghost use Rattle.place.specs.Places.{meant, Lies};
ghost use Rattle.basis.specs.Bases.{needs_curve, Finds};
ghost use Rattle.prepare.specs.Answers.{Prepares, settled_at};

use basis::Basis;
use place::Place;
use rules::{Direction, Refusal};

// A measure whose tests have all passed: its exact magnitudes are the first `count` numbers of a sheet, over `denominator`.
#[derive(Clone, Copy)]
pub struct Measure {
    pub direction: Direction,
    pub denominator: u64,
    pub count: u64,
    pub links: u64,
}

// The quarters, on the basis that was found, with the powers of its curve beside it.
fn on_basis(
    archive: &[u8],
    place: Place,
    found: Result<Basis, Refusal>,
    powers: &[u32],
    sheet: &mut [u64],
) -> Result<Measure, Refusal>
    requires lies { Lies archive.now place }
    requires finds { Finds (basis_of archive.now (meant archive.now place)) powers.now found }
    ensures { Prepares (settled_at archive.now (meant archive.now place)) sheet.new result }
{
    let basis = found?;
    let d = reference::denominator(basis.reference);
    let count = quarters::walk(archive, place, basis.reference, d, powers, sheet)?;
    Ok(Measure {
        direction: place.terms.direction,
        denominator: 4 * d,
        count,
        links: place.links + basis.links + count,
    })
}

// With so many places for the powers of a curve: a table where one is needed, none elsewhere.
fn with_powers<const N: usize>(
    archive: &[u8],
    place: Place,
    sheet: &mut [u64],
) -> Result<Measure, Refusal>
    requires lies { Lies archive.now place }
    requires table { needs_curve place.terms.technology place.terms.variant ≡ true → N ≡ 1001 }
    requires none { needs_curve place.terms.technology place.terms.variant ≡ false → N ≡ 0 }
    ensures { Prepares (settled_at archive.now (meant archive.now place)) sheet.new result }
{
    let mut powers = [0u32; N];
    let found = basis::find(archive, place, &mut powers);
    on_basis(archive, place, found, &powers, sheet)
}

// The exact magnitudes into the sheet, as far as it has places: 1 to 12, and 18. The archive is lent on as a part of itself, the whole:
// so the compiler keeps its address in a register.
#[tactic(auto, using(crate::proofs::Bases::no_place, crate::proofs::Bases::at_whole))]
pub fn prepare(archive: &[u8], p: u64, k: u64, sheet: &mut [u64]) -> Result<Measure, Refusal>
    ensures { Prepares (settled archive.now p k) sheet.new result }
{
    let place = place::find(archive, p, k)?;
    let size = archive.len();
    let whole = &archive[0..size];
    if !basis::needs_curve(place.terms) {
        return with_powers::<0>(whole, place, sheet);
    }
    with_powers::<1001>(whole, place, sheet)
}
