// The program's run (document 01, 'Calls on the archive'): reads an archive of at most 65,536 bytes from standard input and settles all
// measures in order.
#![tactic(auto)]

ghost use Rattle.std.specs.Prelude.{◌≤◌, length};
ghost use Rattle.output.specs.Handing.{HandsAll};
ghost use Rattle.program.specs.Due.{FitsIn, LineDue, MeasureDue, PutsLine, FillsLines, RestDue, ExitStatus};

use output::{Failure, Output};
use report::Cursor;
use std::io::{Read, Write};
use text::Text;

// The report of an archive: where it stands, the amounts of the measure last settled, and its lines up to the cursor's end.
#[derive(Drop)]
struct Report {
    cursor: Cursor,
    list: [i64; 2976],
    out: [u8; 65536],
}

impl Report {
    // The measure at the cursor's places: its first line, with its amounts in the list, or its refusal.
    fn put_next_measure(&mut self, archive: &[u8])
        requires { MeasureDue archive.now self.old }
        ensures { PutsLine archive.now self.old self.new }
    {
        let Cursor { p, k, end, .. } = self.cursor;
        match settle::settle(archive, p, k, &mut self.list) {
            Ok(settled) => {
                let total = settled.total.0;
                let mut text = Text::at(&mut self.out, end);
                text.measure(p, k, settled.count, total, settled.links);
                self.cursor = self.cursor.after_measure(settled.count, text.end);
            }
            Err(refusal) => {
                let number = refusal.number() as u64;
                let end = report::put_refused(&mut self.out, end, p, k, number);
                self.cursor = self.cursor.after_refusal(number, end);
            }
        }
    }

    // One line more, or none where a plant has no further measure or the archive no further plant.
    fn put_next(&mut self, archive: &[u8])
        requires { LineDue archive.now self.old }
        ensures { PutsLine archive.now self.old self.new }
    {
        if self.cursor.place < self.cursor.count {
            let cursor = self.cursor;
            self.cursor = cursor.put_next_quarter(&self.list, &mut self.out);
        } else {
            self.put_next_measure(archive);
        }
    }

    // As many whole lines as have room.
    fn fill(&mut self, archive: &[u8])
        requires { FitsIn archive.now self.old }
        ensures { FillsLines archive.now self.old self.new }
    {
        self.cursor = self.cursor.from_start();
        while !self.cursor.is_finished() && self.cursor.end + 108 <= self.out.len() {
            self.put_next(archive);
        }
    }

    // Every line that is left, part by part, until none is or a write fails.
    fn print<W: Write>(
        &mut self,
        writer: &mut W,
        archive: &[u8],
        start: Output,
    ) -> Result<Output, Failure>
        requires { RestDue archive.now self.old start.handed }
        ensures { HandsAll archive.now result }
    {
        let mut handed = start;
        while !self.cursor.is_finished() {
            self.fill(archive);
            let end = self.cursor.end;
            handed = output::hand(writer, archive, handed, &self.out[..end])?;
        }
        Ok(handed)
    }
}

// The whole output of an input: the line of a refused head, or all others.
fn give_output<W: Write>(writer: &mut W, input: &[u8]) -> Result<Output, Failure>
    ensures { HandsAll input.now result }
{
    let mut line = [0u8; 108];
    let cursor = report::begin(input, &mut line);
    let begun = output::hand(writer, input, output::start(), &line[..cursor.end])?;
    let mut report = Report {
        cursor,
        list: [0; 2976],
        out: [0; 65536],
    };
    report.print(writer, input, begun)
}

// Reads until the buffer is full, the input ends or a read fails, also one that a signal interrupts: how many bytes it has now. std's
// read_exact reads again after such a one and tells no count, and its read_to_end needs a heap.
fn read_full<R: Read>(reader: &mut R, buffer: &mut [u8]) -> usize
    ensures { result ≤ length buffer.old }
{
    let mut done = 0;
    while done < buffer.len() {
        match reader.read(&mut buffer[done..]) {
            Ok(0) | Err(_) => break,
            Ok(n) => done += n,
        }
    }
    done
}

// 0 if an input of so many bytes was read to its end or is too long, 1 if a read failed, which standard error is told.
fn read_status<R: Read, E: Write>(reader: &mut R, errors: &mut E, n: usize) -> u32
    ensures { ExitStatus result }
{
    if 65536 < n {
        return 0;
    }
    let mut more = [0u8; 1];
    if let Ok(0) = reader.read(&mut more) {
        return 0;
    }
    let _ = output::write_all(errors, b"sandegmur: the input could not be read\n");
    1
}

// The input up to one byte more than an archive may have, and its output. The answer is the program's exit status, a number as the system
// takes it: 0, or 1 where a read or a write failed, which standard error is told.
pub fn sandegmur_run<R: Read, W: Write, E: Write>(
    reader: &mut R,
    writer: &mut W,
    errors: &mut E,
) -> u32
    ensures { ExitStatus result }
{
    let mut input = [0u8; 65537];
    let n = read_full(reader, &mut input);
    let status = read_status(reader, errors, n);
    if give_output(writer, &input[..n]).is_err() {
        let _ = output::write_all(errors, b"sandegmur: the output could not be written\n");
        return 1;
    }
    status
}
