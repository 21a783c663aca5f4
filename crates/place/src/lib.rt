// The place of a measure in the archive: its plant and itself (document 01, 'Calls on the archive').
#![tactic(auto)]

ghost use Rattle.std.specs.Prelude.{◌≡◌, ◌+◌, ◌*◌, ◌≤◌, ◌<◌, IfOk, length};
ghost use Rattle.rules.specs.Archive.{record_at, link_at, entry_at, at_place};
ghost use Rattle.rules.specs.Results.{outcome_by, number};
ghost use Rattle.rules.specs.Settle.{place_of};
ghost use Rattle.place.specs.Places.{meant, Lies};

use rules::{Refusal, kind};
use terms::Terms;

// U, the numbers of plant and measure, what they say, and the links followed to them. The archive stays beside it, as a parameter of its own:
// a place with its archive would name each again in every clause, and Lies would still say what no type of a place alone can.
#[derive(Clone, Copy)]
pub struct Place {
    pub used: u64,
    pub plant: u64,
    pub measure: u64,
    pub terms: Terms,
    pub links: u64,
}

// The record at a place of the chain whose first link stands at byte `offset` of its holder; `missing` where it has no such place. Links
// rise.
fn reach(
    archive: &[u8],
    used: u64,
    kind: u8,
    holder: u64,
    offset: usize,
    place: u64,
    missing: Refusal,
) -> Result<u64, Refusal>
    requires held { (32 * used ≤ length archive.now) × (holder < used) }
    requires offset_within { offset + 4 ≤ 32 }
    ensures found { outcome_by (entry_at archive.now) result
        ≡ at_place archive.now used kind (number missing) place holder (link_at (record_at archive.now holder) offset) }
    ensures rises { IfOk result (λ n. (holder + place ≤ n) × (n < used)) }
{
    let first = record::link_of(archive, holder, offset);
    chains::walk_to(archive, used, kind, holder, first, place)?.ok_or(missing)
}

// 1; plants to p (2, 3, 4); measures to k (2, 3, 5); 6; 7.
#[tactic(auto, using(crate::proofs::Laws::places))]
pub fn find(archive: &[u8], p: u64, k: u64) -> Result<Place, Refusal>
    ensures place { outcome_by (meant archive.now) result ≡ place_of archive.now p k }
    ensures lies { IfOk result (Lies archive.now) }
{
    let used = archive::read_head(archive)?;
    let plant = reach(archive, used, kind::PLANT, 0, 8, p, Refusal::NoPlant)?;
    let measure = reach(
        archive,
        used,
        kind::MEASURE,
        plant,
        12,
        k,
        Refusal::NoMeasure,
    )?;
    let of_plant = record::record_at(archive, plant);
    let of_measure = record::record_at(archive, measure);
    let terms = terms::admit(of_plant, of_measure)?;
    Ok(Place {
        used,
        plant,
        measure,
        terms,
        links: p + k,
    })
}
