// Audit (document 01, 'Calls on the archive'): the kind and the links of every record, and a table of how often each record is named.
#![tactic(auto)]

ghost use Rattle.std.specs.Prelude.{◌≡◌, ◌+◌, ◌*◌, ◌≤◌, ◌<◌, length};
ghost use Rattle.rules.specs.Outcome.{number_of};
ghost use Rattle.rules.specs.Links.{link, links_at};
ghost use Rattle.rules.specs.Promises.{Audits};
ghost use Rattle.rules.specs.Results.{outcome};
ghost use Rattle.record.specs.Linked.{listed};
ghost use Rattle.audit.specs.Marks.{marked, marked_once, LinkChecked, LinksChecked, RecordChecked, RecordsChecked};

use record::Link;
use rules::Refusal;

// ---- the table of marks

// How often each record is named, counted up to two: a mark for every number.
type Marks = [u8; 65536];

// Record n is named once more.
fn mark(marks: &mut Marks, n: u64)
    requires { n < 65536 }
    ensures { marks.new ≡ marked marks.old n }
{
    let i = n as usize;
    if marks[i] < 2 {
        marks[i] += 1;
    }
}

// Each used record but the head is named once. No mark ends the loop, so many are compared at a time.
#[tactic(auto, using(crate::proofs::Steps::pass))]
fn all_once(marks: &Marks, used: u64) -> bool
    requires { (1 ≤ used) × (used ≤ 65536) }
    ensures { result ≡ marked_once marks.now used }
{
    let mut once = true;
    for &m in &marks[1..used as usize] {
        once &= m == 1;
    }
    once
}

// ---- the records

// The used records of an archive; the first is the head.
#[derive(Clone, Copy)]
struct Records<'a> {
    archive: &'a [u8],
    used: u64,
    ghost some: { 1 ≤ used },
    ghost few: { used < 65536 },
    ghost fits: { 32 * used ≤ length archive.now },
}

impl<'a> Records<'a> {
    // A link of record n: 2, 3. What it names is marked.
    fn check_link(&self, n: u64, at: usize, to: u8, marks: &mut Marks) -> Result<(), Refusal>
        requires { (n < self.now.used) × (at + 4 ≤ 32) }
        ensures { LinkChecked self.now.archive.now self.now.used n (link at to) marks.old marks.new result }
    {
        let first = record::link_of(self.archive, n, at);
        if let Some(named) = chains::follow(self.archive, self.used, to, n, first)? {
            mark(marks, named);
        }
        Ok(())
    }

    // The links of record n, which are these, in byte order.
    #[tactic(auto, using(crate::proofs::Steps::links))]
    fn check_links(&self, n: u64, links: &[Link], marks: &mut Marks) -> Result<(), Refusal>
        requires below { n < self.now.used }
        requires its { listed links.now ≡ links_at self.now.archive.now n }
        ensures { let a = self.now.archive.now in LinksChecked a self.now.used n (links_at a n) marks.old marks.new result }
    {
        for &Link(at, to) in links {
            self.check_link(n, at, to, marks)?;
        }
        Ok(())
    }

    // The kind of record n, which isn't the head, then its links.
    #[tactic(auto, using(crate::proofs::Steps::kinds))]
    fn check_record(&self, n: u64, marks: &mut Marks) -> Result<(), Refusal>
        requires { (1 ≤ n) × (n < self.now.used) }
        ensures { RecordChecked self.now.archive.now self.now.used n marks.old marks.new result }
    {
        let kind = record::kind_of(record::record_at(self.archive, n));
        if !record::is_kind(kind) {
            return Err(Refusal::WrongKind);
        }
        self.check_links(n, record::links_at(self.archive, n), marks)
    }

    // The head's link, then each used record by number.
    #[tactic(auto, using(crate::proofs::Steps::records))]
    fn check(&self, marks: &mut Marks) -> Result<(), Refusal>
        ensures { RecordsChecked self.now.archive.now self.now.used self.now.used marks.old marks.new result }
    {
        self.check_links(0, record::links_at(self.archive, 0), marks)?;
        for n in 1..self.used {
            self.check_record(n, marks)?;
        }
        Ok(())
    }
}

// ---- audit

// 1; the head's link and each record by number; then 17.
#[tactic(auto, using(crate::proofs::Audits::audits), unfolding(crate::specs::Marks::no_marks))]
pub fn audit(archive: &[u8]) -> Result<(), Refusal>
    ensures { Audits archive.now (number_of (outcome result)) }
{
    let used = archive::read_head(archive)?;
    let records = Records { archive, used };
    let mut marks = [0; 65536];
    records.check(&mut marks)?;
    if !all_once(&marks, used) {
        return Err(Refusal::NotNamedOnce);
    }
    Ok(())
}
