// Links followed, and chains walked to a place or to their end (document 01, 'Chains').
#![tactic(auto)]

ghost use Rattle.std.specs.Prelude.{◌≡◌, ℕ, ◌+◌, ◌*◌, ◌≤◌, ◌<◌, length};
ghost use Rattle.std.specs.Iterator.{at_most};
ghost use Rattle.rules.specs.Archive.{link_at, at_place, chain};
ghost use Rattle.rules.specs.Results.{outcome};
ghost use Rattle.chains.specs.Answers.{followed, linked, reached, ended};
ghost use Rattle.chains.specs.Held.{LinkHeld};
ghost use Rattle.chains.specs.Steps.{Lies, Steps, Starts, left};

use rules::Refusal;

// ---- links

// A link of `holder` that is followed is above its holder and below U (2), then leads to the right kind (3): the number of its record, or
// none at a link of zero, which ends a chain. An archive and its U stay two parameters here and below: a struct of both would name each of
// them again in every clause, and it is handed on to no further function.
pub fn follow(
    archive: &[u8],
    used: u64,
    kind: u8,
    holder: u64,
    link: u64,
) -> Result<Option<u64>, Refusal>
    requires { 32 * used ≤ length archive.now }
    ensures { followed archive.now result ≡ linked archive.now used kind holder link }
{
    if link == 0 {
        return Ok(None);
    }
    if link <= holder || used <= link {
        return Err(Refusal::BadLink);
    }
    if record::kind_of(record::record_at(archive, link)) != kind {
        return Err(Refusal::WrongKind);
    }
    Ok(Some(link))
}

// ---- chains

// A walk along a chain: the record that it has come to, at first the chain's holder, and the link that is followed next. It gives the
// numbers of the chain's records, and ends at the first refusal.
#[derive(Drop)]
pub struct Chain<'a> {
    archive: &'a [u8],
    used: u64,
    kind: u8,
    last: u64,
    link: u64,
}

impl<'a> Iterator for Chain<'a> {
    type Item = Result<u64, Refusal>;

    ghost can_next = { Lies };

    ghost next_gives = { Steps };

    ghost remaining = { λ s. at_most (left s) };

    fn next(&mut self) -> Option<Result<u64, Refusal>> {
        match follow(self.archive, self.used, self.kind, self.last, self.link) {
            Ok(None) => None,
            Ok(Some(n)) => {
                let onward = record::link_of(self.archive, n, 4);
                self.last = n;
                self.link = onward;
                Some(Ok(n))
            }
            Err(refusal) => {
                self.link = 0;
                Some(Err(refusal))
            }
        }
    }
}

impl<'a> Chain<'a> {
    // From the link `first` of `holder` on.
    pub fn starting(archive: &'a [u8], used: u64, kind: u8, holder: u64, first: u64) -> Chain<'a>
        requires { 32 * used ≤ length archive.now }
        ensures { Starts archive.now used kind holder first result }
    {
        Chain {
            archive,
            used,
            kind,
            last: holder,
            link: first,
        }
    }
}

// The record at a place of a chain, counted from 1, or none where the chain doesn't have that place. As many links are followed to it; at
// place 0 none is.
pub fn walk_to(
    archive: &[u8],
    used: u64,
    kind: u8,
    holder: u64,
    first: u64,
    place: u64,
) -> Result<Option<u64>, Refusal>
    requires { 32 * used ≤ length archive.now }
    ensures { (missing : ℕ) → reached archive.now missing result ≡ at_place archive.now used kind missing place holder first }
{
    if place == 0 {
        return Ok(None);
    }
    // Asked here too, as the iterator would: so the compiler keeps the first link apart from the next ones, which take a quarter more time
    // where it reads both in one place.
    if first == 0 {
        return Ok(None);
    }
    // counted here, since a place counts from 1 and enumerate from 0
    let mut passed: u64 = 0;
    for step in Chain::starting(archive, used, kind, holder, first) {
        let n = step?;
        passed += 1;
        if passed == place {
            return Ok(Some(n));
        }
    }
    Ok(None)
}

// The place of a chain's last link, and the links followed.
#[derive(Clone, Copy)]
pub struct ChainEnd {
    pub place: u64,
    pub links: u64,
}

// The chain starts with the link at byte `offset` of its holder.
pub fn walk_all(
    archive: &[u8],
    used: u64,
    kind: u8,
    holder: u64,
    offset: usize,
) -> Result<ChainEnd, Refusal>
    requires { LinkHeld archive.now used holder offset }
    ensures { let first = 32 * holder + offset in
        outcome result ≡ ended first (chain archive.now used kind holder (link_at archive.now first)) }
{
    let mut place = 32 * holder + offset as u64;
    let mut links: u64 = 0;
    let first = record::link_of(archive, holder, offset);
    for step in Chain::starting(archive, used, kind, holder, first) {
        place = 32 * step? + 4;
        links += 1;
    }
    Ok(ChainEnd { place, links })
}
