// Taking the last record back (document 02, 2): one pass over the links of the used records, then three writes.
#![tactic(auto)]

ghost use Rattle.std.specs.Prelude.{◌≡◌, ◌++◌, ◌+◌, ◌*◌, ◌≤◌, length};
ghost use Rattle.rules.specs.Outcome.{number_of};
ghost use Rattle.rules.specs.Archive.{record_at};
ghost use Rattle.rules.specs.Links.{namers};
ghost use Rattle.rules.specs.TakeBack.{only_place, taken_back};
ghost use Rattle.rules.specs.Promises.{TakesBack};
ghost use Rattle.rules.specs.Results.{outcome};
ghost use Rattle.takeback.specs.Namings.{holds_number, namers_in, met_at, naming_of, HasLast, Leaves};

use filing::Destination;
use record::Link;
use rules::Refusal;

// ---- the links that name a record, by their value alone

// Whether bytes 4-15 of record n, where all links stand, hold a number at all: in few records they do. Three comparisons, as the book's
// holds_number: any() over the three places would be longer by a closure with its own clauses.
fn holds(archive: &[u8], n: u64, number: u64) -> bool
    requires { 32 * n + 32 ≤ length archive.now }
    ensures { result ≡ holds_number (record_at archive.now n) number }
{
    let a = record::link_of(archive, n, 4);
    let b = record::link_of(archive, n, 8);
    let c = record::link_of(archive, n, 12);
    (a == number) | (b == number) | (c == number)
}

// The place of the one link that names a record, of those of record n and the one met before; or none. A second is refused.
fn naming_in(archive: &[u8], n: u64, named: u64, met: Option<u64>) -> Result<Option<u64>, Refusal>
    requires { 32 * n + 32 ≤ length archive.now }
    ensures { result ≡ naming_of (met_at met ++ namers_in archive.now n named) }
{
    let mut place = met;
    for &Link(at, _) in record::links_at(archive, n) {
        if record::link_of(archive, n, at) == named {
            if place.is_some() {
                return Err(Refusal::LastNotNamedOnce);
            }
            place = Some(32 * n + at as u64);
        }
    }
    Ok(place)
}

// The place of the one link that names a record, over the links of all used records, or 19; the second that names it ends the pass. The head
// stands before the loop, which is quicker without it.
fn only_link_to(archive: &[u8], used: u64, named: u64) -> Result<u64, Refusal>
    requires { (1 ≤ used) × (32 * used ≤ length archive.now) }
    ensures { outcome result ≡ only_place (namers archive.now used named) }
{
    let mut met = naming_in(archive, 0, named, None)?;
    for n in 1..used {
        if holds(archive, n, named) {
            met = naming_in(archive, n, named, met)?;
        }
    }
    met.ok_or(Refusal::LastNotNamedOnce)
}

// ---- taking back

// The last record and the place of the one link to it. Every test, before a byte is written: 1, 19.
fn find_last(archive: &[u8]) -> Result<Destination, Refusal>
    ensures { Leaves archive.now result }
{
    let used = archive::read_head(archive)?;
    if used == 1 {
        return Err(Refusal::LastNotNamedOnce);
    }
    let number = used - 1;
    let place = only_link_to(archive, used, number)?;
    Ok(Destination { number, place })
}

// The last record is cleared, the link to it zeroed, U lowered by 1.
fn clear_last(archive: &mut [u8], last: Destination)
    requires { HasLast archive.old (last.number + 1) last.place }
    ensures { archive.new ≡ taken_back archive.old (last.number + 1) last.place }
{
    filing::write(archive, last, &[0; 32], 0, last.number);
}

// 1, 19; nothing is written before both have passed.
pub fn take_back(archive: &mut [u8]) -> Result<(), Refusal>
    ensures { TakesBack archive.old archive.new (number_of (outcome result)) }
{
    let last = find_last(archive)?;
    clear_last(archive, last);
    Ok(())
}
