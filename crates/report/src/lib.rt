// The program's output line by line (document 01, 'Calls on the archive'): where it stands, and its lines into a lent part of bytes.
#![tactic(auto)]

ghost use Rattle.std.specs.Prelude.{◌≡◌, List, ℕ, ◌+◌, ◌≤◌, ◌<◌, length};
ghost use Rattle.rules.specs.Outcome.{refused};
ghost use Rattle.rules.specs.Output.{lines_of, step_after, text_of_all};
ghost use Rattle.text.specs.Writes.{Writes};
ghost use Rattle.report.specs.Cursors.{finished, start_at, settled_at, moved, first_at, Fits, QuarterDue, Ends, Begins, Advances};

use rules::Refusal;
use text::Text;

// The refusals that a report tells apart, as numbers: put_refused and after_refusal take every number, also one that no refusal has.
const BAD_LINK: u64 = Refusal::BadLink as u64;

const WRONG_KIND: u64 = Refusal::WrongKind as u64;

const NO_PLANT: u64 = Refusal::NoPlant as u64;

const NO_MEASURE: u64 = Refusal::NoMeasure as u64;

// The measure to settle next, plant place p and measure place k of an archive of `used` records; the quarters written and all quarters
// of the measure last settled, whose amounts are in a list beside it; whether the report ends with them; and the bytes written.
// `done` beside p and k is no Option of them: an ended report keeps its places (`moved`), and each measure would ask again for what the
// loop over `is_finished` has asked.
#[derive(Clone, Copy)]
pub struct Cursor {
    used: u64,
    pub p: u64,
    pub k: u64,
    pub place: u64,
    pub count: u64,
    pub done: bool,
    pub end: usize,
}

impl Cursor {
    pub fn is_finished(self) -> bool
        ensures { result ≡ finished self }
    {
        self.count <= self.place && self.done
    }

    // The line of the next quarter.
    pub fn put_next_quarter(self, list: &[i64], out: &mut [u8]) -> Cursor
        requires { QuarterDue self list.now out.old }
        ensures { (archive : List ℕ) → Fits archive self list.now
            → Advances archive self list.now out.old result list.now out.new }
    {
        let place = self.place + 1;
        let amount = list[self.place as usize];
        let mut text = Text::at(out, self.end);
        text.quarter(place, amount);
        Cursor {
            place,
            end: text.end,
            ..self
        }
    }

    // After the line of a measure that is settled.
    pub fn after_measure(self, count: u64, end: usize) -> Cursor
        requires { self.k < 65536 }
        ensures { result ≡ settled_at self count end }
    {
        Cursor {
            k: self.k + 1,
            place: 0,
            count,
            end,
            ..self
        }
    }

    // 5 leads on to the next plant, 4 ends the program, 2 or 3 ends it after its line, any other refusal leads on to the next measure.
    #[tactic(auto, unfolding(crate::specs::Cursors::moved))]
    pub fn after_refusal(self, number: u64, end: usize) -> Cursor
        requires { (self.p < 65536) × (self.k < 65536) }
        ensures { result ≡ moved (step_after (refused number)) self end }
    {
        let next = Cursor {
            place: 0,
            count: 0,
            end,
            ..self
        };
        match number {
            NO_PLANT | BAD_LINK | WRONG_KIND => Cursor { done: true, ..next },
            NO_MEASURE => {
                let p = self.p + 1;
                Cursor { p, k: 1, ..next }
            }
            _ => Cursor {
                k: self.k + 1,
                ..next
            },
        }
    }

    // The cursor with its lines to be written from the first byte on.
    pub fn from_start(self) -> Cursor
        ensures { result ≡ start_at self }
    {
        Cursor { end: 0, ..self }
    }
}

// The line of a refused measure; nothing is printed for 4 and 5.
pub fn put_refused(out: &mut [u8], at: usize, p: u64, k: u64, number: u64) -> usize
    requires { at + 108 ≤ length out.old }
    ensures { Writes out.old at (text_of_all (lines_of p k (refused number))) out.new result × (result ≤ at + 108) }
{
    match number {
        NO_PLANT | NO_MEASURE => at,
        _ => {
            let mut text = Text::at(out, at);
            text.refusal(p, k, number);
            text.end
        }
    }
}

// The line of a refused head.
fn refused_head(out: &mut [u8]) -> Cursor
    requires { 108 ≤ length out.old }
    ensures { Ends out.old out.new result }
{
    let mut text = Text::at(out, 0);
    text.refusal(0, 0, Refusal::NotArchive as u64);
    Cursor {
        used: 0,
        p: 0,
        k: 0,
        place: 0,
        count: 0,
        done: true,
        end: text.end,
    }
}

// Before the first measure.
fn first(used: u64) -> Cursor
    ensures { result ≡ first_at used }
{
    Cursor {
        used,
        p: 1,
        k: 1,
        place: 0,
        count: 0,
        done: false,
        end: 0,
    }
}

// A refused head or an input of more than 65,536 bytes prints only E 0 0 1; otherwise the measures from the first one on.
pub fn begin(input: &[u8], out: &mut [u8]) -> Cursor
    requires { 108 ≤ length out.old }
    ensures { Begins input.now out.new result }
{
    if 65536 < input.len() {
        return refused_head(out);
    }
    match archive::read_head(input) {
        Ok(used) => first(used),
        Err(_) => refused_head(out),
    }
}
