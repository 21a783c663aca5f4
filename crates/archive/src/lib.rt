// The archive's head, and show (document 01, 'The archive').
#![tactic(auto)]

ghost use Rattle.std.specs.Prelude.{◌≡◌};
ghost use Rattle.rules.specs.Archive.{is_whole, is_text, used_of};
ghost use Rattle.rules.specs.Promises.{Shows};
ghost use Rattle.rules.specs.Results.{outcome};

use record::Record;
use rules::Refusal;

// ---- the head

// 1 to 65,535 records of 32 bytes.
pub fn is_whole(size: usize) -> bool
    ensures { result ≡ is_whole size }
{
    size % 32 == 0 && (1..=65535).contains(&(size / 32))
}

// Bytes 0-3 are AARB; as a link they would be this number. Compared as the link they are (document 02, 4), in one test and not in four.
fn is_text(r: &Record) -> bool
    ensures { result ≡ is_text r.now }
{
    record::link_at(r, 0) == 1112686913
}

// U, the count of used records. Two comparisons: of a range's contains, tried here, the check finds no proof but in a function of its own.
pub fn read_head(archive: &[u8]) -> Result<u64, Refusal>
    ensures { outcome result ≡ used_of archive.now }
{
    if !is_whole(archive.len()) {
        return Err(Refusal::NotArchive);
    }
    if !is_text(record::record_at(archive, 0)) {
        return Err(Refusal::NotArchive);
    }
    let used = record::link_of(archive, 0, 4);
    if used < 1 || ((archive.len() / 32) as u64) < used {
        return Err(Refusal::NotArchive);
    }
    Ok(used)
}

// ---- show

// The 32 bytes of a record, or the empty part of the archive on refusal 1 and for a number of U or more: a part in both cases, as Shows says
// where it lies.
pub fn show(archive: &[u8], number: u64) -> &[u8]
    ensures { Shows archive.entry number result }
{
    let Ok(used) = read_head(archive) else {
        return &archive[0..0];
    };
    if used <= number {
        return &archive[0..0];
    }
    let i = number as usize;
    &archive[32 * i..32 * i + 32]
}
