// Fresh and append (document 01, 'Calls on the archive').
#![tactic(auto)]

ghost use Rattle.std.specs.Prelude.{◌≡◌, ◌+◌, ◌*◌, ◌≤◌, ◌<◌, ◌^◌, length};
ghost use Rattle.rules.specs.Outcome.{number_of};
ghost use Rattle.rules.specs.Encoding.{word, put};
ghost use Rattle.rules.specs.Filing.{append_after, new_allowed, offset_for};
ghost use Rattle.rules.specs.Promises.{Freshens, Appends};
ghost use Rattle.rules.specs.Results.{outcome};
ghost use Rattle.filing.specs.Destinations.{HasRoom, Allowed, Goes};

use record::{Link, Record};
use rules::Refusal;

// ---- fresh

// AARB and U = 1, every other byte zero: 1 for the length.
pub fn fresh(archive: &mut [u8]) -> Result<(), Refusal>
    ensures { Freshens archive.old archive.new (number_of (outcome result)) }
{
    if !archive::is_whole(archive.len()) {
        return Err(Refusal::NotArchive);
    }
    writing::clear(archive);
    writing::put_bytes(archive, 0, b"AARB\x01\x00\x00\x00");
    Ok(())
}

// ---- a record filed

// Where a record goes: its number, and the place of the link to it.
#[derive(Clone, Copy)]
pub struct Destination {
    pub number: u64,
    pub place: u64,
}

// A record goes to its number, the link to it becomes `link`, U becomes `used`, no other byte changes: so a record is filed, taken back and
// undone.
pub fn write(archive: &mut [u8], to: Destination, new: &Record, link: u64, used: u64)
    requires fits { (32 * to.number + 32 ≤ length archive.old) × (to.place + 4 ≤ length archive.old) }
    requires words { (link < 2 ^ 32) × (used < 2 ^ 32) }
    ensures { archive.new ≡ put (put (put archive.old (32 * to.number) new.now) to.place (word link)) 4 (word used) }
{
    writing::put_bytes(archive, 32 * to.number, new);
    writing::put_word(archive, to.place, link);
    writing::put_word(archive, 4, used);
}

// The record goes to number U, the last link of its chain points to it, U grows by 1.
pub fn file(archive: &mut [u8], to: Destination, new: &[u8])
    requires { HasRoom archive.old to.number to.place new.now }
    ensures { archive.new ≡ append_after archive.old to.number to.place new.now }
{
    let new = new.first_chunk().unwrap();
    write(archive, to, new, to.number, to.number + 1);
}

// A new record under its owner: 1, 14, 15, 2, 3, 16; nothing is written before every test has passed.
pub fn append(archive: &mut [u8], owner: u64, new: &[u8]) -> Result<(), Refusal>
    ensures { Appends archive.old owner new.now archive.new (number_of (outcome result)) }
{
    let to = destination_for(archive, owner, new)?;
    file(archive, to, new);
    Ok(())
}

// The new record, if it is one: 32 bytes of a known kind with every link zero.
fn new_allowed(new: &[u8]) -> Option<&Record>
    ensures { Allowed new.now result }
{
    let Ok(record) = <&Record>::try_from(new) else {
        return None;
    };
    if !record::is_kind(record::kind_of(record)) {
        return None;
    }
    for &Link(at, _) in record::links_of(record) {
        if record::link_at(record, at) != 0 {
            return None;
        }
    }
    Some(record)
}

// The byte of the owner's link to its records of a kind, or 15.
fn offset_for(archive: &[u8], used: u64, owner: u64, kind: u8) -> Result<usize, Refusal>
    requires { 32 * used ≤ length archive.now }
    ensures { outcome result ≡ offset_for archive.now used owner kind }
{
    if used <= owner {
        return Err(Refusal::BadOwner);
    }
    for &Link(at, to) in record::owned_at(archive, owner) {
        if to == kind {
            return Ok(at);
        }
    }
    Err(Refusal::BadOwner)
}

// Every test of append, before a byte is written: 1, 14, 15, 2, 3, 16.
pub fn destination_for(archive: &[u8], owner: u64, new: &[u8]) -> Result<Destination, Refusal>
    ensures { Goes archive.now owner new.now result }
{
    let used = archive::read_head(archive)?;
    let Some(record) = new_allowed(new) else {
        return Err(Refusal::BadRecord);
    };
    let kind = record::kind_of(record);
    let offset = offset_for(archive, used, owner, kind)?;
    let last = chains::walk_all(archive, used, kind, owner, offset)?;
    if (archive.len() / 32) as u64 <= used {
        return Err(Refusal::ArchiveFull);
    }
    Ok(Destination {
        number: used,
        place: last.place,
    })
}
