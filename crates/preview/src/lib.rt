// Preview (document 02, 6): what settle would give with one more record. The archive is lent for writing: the record is appended, the
// measure settled, and every byte put back, whatever settle answers.
#![tactic(auto)]

ghost use Rattle.std.specs.Prelude.{◌≡◌};
ghost use Rattle.rules.specs.Preview.{undone};
ghost use Rattle.rules.specs.Promises.{Previews};
ghost use Rattle.settle.specs.Answers.{answered};
ghost use Rattle.preview.specs.Undoing.{CanUndo, AppendsForNow};

use filing::Destination;
use record::Record;
use rules::Refusal;
use settle::Settled;

// ---- a record appended for now

// Where a record was appended, and what the record of that number was before.
#[derive(Clone, Copy)]
pub struct Appended {
    pub destination: Destination,
    pub before: Record,
}

// Append, and keep what undoes it.
pub fn append_for_now(archive: &mut [u8], owner: u64, new: &[u8]) -> Result<Appended, Refusal>
    ensures { AppendsForNow archive.old owner new.now archive.new result }
{
    let destination = filing::destination_for(archive, owner, new)?;
    let before = *record::record_at(archive, destination.number);
    filing::file(archive, destination, new);
    Ok(Appended {
        destination,
        before,
    })
}

// The append undone, which isn't taking back: record U gets its old bytes, the link becomes 0 again, and U what it was.
pub fn undo(archive: &mut [u8], appended: Appended)
    requires { CanUndo archive.old appended.destination.number appended.destination.place appended.before }
    ensures { archive.new
        ≡ undone archive.old appended.destination.number appended.destination.place appended.before }
{
    let to = appended.destination;
    filing::write(archive, to, &appended.before, 0, to.number);
}

// ---- preview

// Append's refusals first, then settle's answer, list and refusal.
#[tactic(auto, using(rules::proofs::Preview::preview_refused, rules::proofs::Preview::preview_settled))]
pub fn preview(
    archive: &mut [u8],
    owner: u64,
    new: &[u8],
    p: u64,
    k: u64,
    list: &mut [i64],
) -> Result<Settled, Refusal>
    ensures { Previews archive.old owner new.now p k list.old list.new archive.new (answered result) }
{
    let appended = append_for_now(archive, owner, new)?;
    let settled = settle::settle(archive, p, k, list);
    undo(archive, appended);
    settled
}
