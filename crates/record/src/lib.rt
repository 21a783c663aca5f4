// The fields, the kind and the links of a record (document 01, 'The archive').
#![tactic(auto)]

ghost use Rattle.std.specs.Prelude.{◌≡◌, ◌+◌, ◌*◌, ◌^◌, ◌≤◌, ◌<◌, [], ◌∷◌, length};
ghost use Rattle.std.specs.Int.Signed.{mag};
ghost use Rattle.rules.specs.Archive.{link_at, field_at, record_at, kind_of};
ghost use Rattle.rules.specs.Terms.{reading_at};
ghost use Rattle.rules.specs.Links.{is_kind, owned_by, owned_at, links_of, links_at};
ghost use Rattle.record.specs.Linked.{listed};
ghost use Rattle.record.specs.Powers.{PowerOf, SmallestOf};

use rules::kind;
use units::Watt;

// The bytes of a record. An archive and a record's number, and bytes and a field's place, stay two parameters: a struct of both would be made
// for one read, and be taken apart in its clause.
pub type Record = [u8; 32];

// Record n of an archive.
pub fn record_at(archive: &[u8], n: u64) -> &Record
    requires { 32 * n + 32 ≤ length archive.now }
    ensures { result.now ≡ record_at archive.now n }
{
    let start = 32 * n as usize;
    archive[start..start + 32].first_chunk().unwrap()
}

// A byte as a number of 64 bits.
fn wide(x: u8) -> u64
    ensures { (result ≡ x) × (result < 256) }
{
    u64::from(x)
}

// Four bytes, little-endian, joined by shifts (document 02, 4).
pub fn link_at(r: &[u8], at: usize) -> u64
    requires { at + 4 ≤ length r.now }
    ensures { (result ≡ link_at r.now at) × (result < 2 ^ 32) }
{
    wide(r[at]) + (wide(r[at + 1]) << 8) + (wide(r[at + 2]) << 16) + (wide(r[at + 3]) << 24)
}

// A signed field of four bytes: a power.
pub fn watt_at(r: &[u8], at: usize) -> Watt
    requires { at + 4 ≤ length r.now }
    ensures { result.0 ≡ field_at r.now at }
{
    units::watt_of(link_at(r, at))
}

// Measured power, limit or plan, in its range.
pub fn power_at(r: &[u8], at: usize) -> Option<Watt>
    requires { at + 4 ≤ length r.now }
    ensures { PowerOf (field_at r.now at) result }
{
    let power = watt_at(r, at);
    if !units::in_power_range(power) {
        return None;
    }
    Some(power)
}

// The number that means that there is no reading (document 02, 3). It is above every power in range.
const NO_READING: u64 = 2147483647;

// The smaller of a power and a reading of the record, which may be none.
pub fn bounded_at(a: Watt, r: &[u8], at: usize) -> Option<Watt>
    requires at_in_bounds { at + 4 ≤ length r.now }
    requires a_bound { mag a.0 ≤ 1000000000 }
    ensures { SmallestOf (reading_at r.now at ∷ []) a.0 result }
{
    let word = link_at(r, at);
    let power = units::watt_of(word);
    if !(units::in_power_range(power) | (word == NO_READING)) {
        return None;
    }
    Some(units::smaller(a, power))
}

// Byte 0 of a record.
pub fn kind_of(r: &Record) -> u8
    ensures { result ≡ kind_of r.now }
{
    r[0]
}

// A link of record n, read from its own 32 bytes.
pub fn link_of(archive: &[u8], n: u64, at: usize) -> u64
    requires { (32 * n + 32 ≤ length archive.now) × (at + 4 ≤ 32) }
    ensures { (result ≡ link_at (record_at archive.now n) at) × (result < 2 ^ 32) }
{
    link_at(record_at(archive, n), at)
}

// The known kinds, 1-5.
pub fn is_kind(kind: u8) -> bool
    ensures { result ≡ is_kind kind }
{
    (kind::PLANT..=kind::QUARTER).contains(&kind)
}

// ---- links

// A link of a record: the byte where it starts and the kind that it leads to.
#[derive(Clone, Copy)]
pub struct Link(pub usize, pub u8);

// Where a row of links_of has no link.
const NONE: Link = Link(0, 0);

// All links of a record in byte order: to the next record of its chain, then to the first of each chain that it owns. What it has follows
// from bytes 0-2. Each kind has a row. How much of it counts is told from the kind, since audit would wait for a length that is looked up.
pub fn links_of(r: &Record) -> &'static [Link]
    ensures { listed result.now ≡ links_of r.now }
{
    let rows: &'static [[Link; 3]; 5] = &[
        [
            Link(4, kind::PLANT),
            Link(8, kind::POINT),
            Link(12, kind::MEASURE),
        ],
        [Link(4, kind::POINT), NONE, NONE],
        [
            Link(4, kind::MEASURE),
            Link(8, kind::BEFORE),
            Link(12, kind::QUARTER),
        ],
        [Link(4, kind::BEFORE), NONE, NONE],
        [Link(4, kind::QUARTER), NONE, NONE],
    ];
    let kind = kind_of(r);
    if !is_kind(kind) {
        return &[];
    }
    let row = &rows[usize::from(kind - 1)];
    if (kind == kind::PLANT) | (kind == kind::MEASURE) {
        return row;
    }
    &row[..1]
}

// Of record n; the head has one, to the first plant.
pub fn links_at(archive: &[u8], n: u64) -> &'static [Link]
    requires { 32 * n + 32 ≤ length archive.now }
    ensures { listed result.now ≡ links_at archive.now n }
{
    if n == 0 {
        return &[Link(8, kind::PLANT)];
    }
    links_of(record_at(archive, n))
}

// Its links but the one to the next record of its chain, as links_of has them behind that.
#[tactic(auto, using(crate::proofs::Links::owned))]
pub fn owned_of(r: &Record) -> &'static [Link]
    ensures { listed result.now ≡ owned_by r.now }
{
    let links = links_of(r);
    if links.is_empty() {
        return links;
    }
    &links[1..]
}

// Of record n, beside links_at as owned_of is beside links_of.
pub fn owned_at(archive: &[u8], n: u64) -> &'static [Link]
    requires { 32 * n + 32 ≤ length archive.now }
    ensures { listed result.now ≡ owned_at archive.now n }
{
    if n == 0 {
        return links_at(archive, n);
    }
    owned_of(record_at(archive, n))
}

#[cfg(test)]
mod tests;
