// Calls made by the outside program (reference/src/bin/cases.rs) and run here. The file `calls` has them one after another; each gives a
// line with its refusal number, the count, total and links of a settle or preview, the delivery day or the remainder and the cents of a
// correction, and a checksum of the later list, archive or both.
#![tactic(auto)]

ghost use Rattle.std.specs.Prelude.{ℕ, ◌+◌, ◌≤◌, ◌<◌, length};
ghost use Rattle.cases.specs.declared.TheConstants.{MODULUS};

use rules::Refusal;
use settle::Settled;
use std::fs::File;
use std::io::{Read, Write};
use std::marker::Model;
use text::Text;
use units::QuarterNumber;

// ---- checksums

// A prime above twice every amount, so that one wrong byte or amount always shows.
const MODULUS: u64 = 10000000000000061;

// A remainder by that prime.
#[derive(Clone, Copy)]
struct Checksum(u64);

impl Model for Checksum {
    ghost Value = { ℕ };

    ghost view = { λ c. c.0 };

    ghost invariant = { λ c. c.0 < MODULUS };

    ghost inverse = { λ n. record { 0 = n } };
}

impl Checksum {
    fn mix(self, n: u64) -> Checksum {
        Checksum((257 * self.0 + n % MODULUS) % MODULUS)
    }

    fn of_bytes(bytes: &[u8]) -> Checksum {
        let zero = Checksum(0);
        bytes
            .iter()
            .fold(zero, |sum, byte| sum.mix(u64::from(*byte)))
    }

    // Each amount by its remainder, which is never below zero.
    fn of_list(list: &[i64]) -> Checksum {
        let zero = Checksum(0);
        let modulus = MODULUS as i64;
        list.iter().fold(zero, |sum, amount| {
            sum.mix(amount.rem_euclid(modulus) as u64)
        })
    }
}

// ---- the answers

// The numbers of a line of the output, 0 where a call doesn't give one.
#[derive(Clone, Copy)]
struct Answer {
    number: u64,
    count: u64,
    total: i64,
    links: u64,
    sum: Checksum,
}

// The answer of a call that gives a count and nothing else.
fn counted(count: u64, sum: Checksum) -> Answer {
    Answer {
        number: 0,
        count,
        total: 0,
        links: 0,
        sum,
    }
}

// The answer of a call that gives nothing but its refusal number.
fn numbered(number: u32, sum: Checksum) -> Answer {
    Answer {
        number: u64::from(number),
        ..counted(0, sum)
    }
}

fn done(answer: Result<(), Refusal>, sum: Checksum) -> Answer {
    numbered(rules::refusal::number_of(answer), sum)
}

fn settled(answer: Result<Settled, Refusal>, sum: Checksum) -> Answer {
    match answer {
        Ok(settled) => Answer {
            total: settled.total.0,
            links: settled.links,
            ..counted(settled.count, sum)
        },
        Err(refusal) => numbered(refusal.number(), sum),
    }
}

// Each number by its bytes, as many as there is room for. B is an array of bytes, whose size no bound `Fn` may name as a const parameter.
fn read_numbers<B: Copy, T: Copy, F: Fn(B) -> T>(
    parts: &[B],
    numbers: &mut [T],
    number_of: F,
) -> usize
    requires { F.IsAlwaysCallable number_of }
    ensures { result ≤ length numbers.old }
{
    for (number, part) in numbers.iter_mut().zip(parts) {
        *number = number_of(*part);
    }
    numbers.len().min(parts.len())
}

// Holidays of four bytes each. The count is the day.
fn delivery_day(quarter: u64, holidays: &[u8]) -> Answer {
    let mut days = [0u32; 64];
    let (parts, _) = holidays.as_chunks();
    let n = read_numbers(parts, &mut days, u32::from_le_bytes);
    match calendar::delivery_day(QuarterNumber(quarter), &days[..n]) {
        Ok(day) => counted(day.0, Checksum(0)),
        Err(refusal) => numbered(refusal.number(), Checksum(0)),
    }
}

fn at_most(n: u64, most: usize) -> usize
    ensures { result ≤ most }
{
    n.min(most as u64) as usize
}

// Amounts, balanced energies and prices one after another, so many of the first two.
fn correction_of(numbers: &[i64], amounts: u64, balanced: u64) -> Answer {
    let (amounts, others) = numbers.split_at(at_most(amounts, numbers.len()));
    let (balanced, prices) = others.split_at(at_most(balanced, others.len()));
    let corrected = correction::corrected(correction::correction(amounts, balanced, prices));
    let money = corrected.money;
    Answer {
        number: corrected.refusal,
        total: money.cents,
        ..counted(money.remainder, Checksum(0))
    }
}

// The count is the remainder, the total the cents.
fn correction(amounts: u64, balanced: u64, lists: &[u8]) -> Answer {
    let mut numbers = [0i64; 9216];
    let (parts, _) = lists.as_chunks();
    let n = read_numbers(parts, &mut numbers, i64::from_le_bytes);
    correction_of(&numbers[..n], amounts, balanced)
}

// The count is the part's length.
fn shown(part: &[u8]) -> Answer {
    counted(part.len() as u64, Checksum::of_bytes(part))
}

// ---- the calls

// Which call, with plant and measure place, the owner's, record's or quarter's number, or how many amounts and balanced energies there are.
#[derive(Clone, Copy)]
enum Call {
    Settle { p: u64, k: u64 },
    Append { owner: u64 },
    Audit,
    Show { number: u64 },
    Fresh,
    DeliveryDay { quarter: u64 },
    TakeBack,
    Correction { amounts: u64, balanced: u64 },
    Preview { p: u64, k: u64, owner: u64 },
}

impl Call {
    // By its name in the file and its three numbers there. What has no other name is fresh.
    fn named(name: u64, first: u64, second: u64, third: u64) -> Call {
        match name {
            1 => Call::Settle {
                p: first,
                k: second,
            },
            2 => Call::Append { owner: first },
            3 => Call::Audit,
            4 => Call::Show { number: first },
            6 => Call::DeliveryDay { quarter: first },
            7 => Call::TakeBack,
            8 => Call::Correction {
                amounts: first,
                balanced: second,
            },
            9 => Call::Preview {
                p: first,
                k: second,
                owner: third,
            },
            _ => Call::Fresh,
        }
    }

    // `filed` is a new record, holidays or the lists of a correction.
    fn answer(self, archive: &mut [u8], filed: &[u8], list: &mut [i64]) -> Answer {
        match self {
            Call::Settle { p, k } => settled(
                settle::settle(archive, p, k, list),
                Checksum::of_list(list),
            ),
            Call::Append { owner } => done(
                filing::append(archive, owner, filed),
                Checksum::of_bytes(archive),
            ),
            Call::Audit => done(audit::audit(archive), Checksum(0)),
            Call::Show { number } => shown(archive::show(archive, number)),
            Call::Fresh => done(filing::fresh(archive), Checksum::of_bytes(archive)),
            Call::DeliveryDay { quarter } => delivery_day(quarter, filed),
            Call::TakeBack => done(takeback::take_back(archive), Checksum::of_bytes(archive)),
            Call::Correction { amounts, balanced } => correction(amounts, balanced, filed),
            // The checksum is of the later archive and list.
            Call::Preview { p, k, owner } => settled(
                preview::preview(archive, owner, filed, p, k, list),
                Checksum::of_bytes(archive).mix(Checksum::of_list(list).0),
            ),
        }
    }
}

// ---- a call in the file

// So many bytes follow for the archive's start, whose further bytes stay as the last call left them; the archive has `size` bytes; `filed`
// bytes of a new record, of holidays or of the lists of a correction follow; the list has `places` places.
#[derive(Clone, Copy)]
struct Head {
    call: Call,
    given: usize,
    size: usize,
    filed: usize,
    places: usize,
}

fn double_word(r: &[u8; 44], at: usize) -> u64
    requires { at + 8 ≤ 44 }
{
    u64::from_le_bytes(*r[at..].first_chunk().unwrap())
}

fn head_of(r: &[u8; 44]) -> Head {
    Head {
        call: Call::named(
            record::link_at(r, 0),
            double_word(r, 4),
            double_word(r, 12),
            double_word(r, 20),
        ),
        given: record::link_at(r, 28) as usize,
        size: record::link_at(r, 32) as usize,
        filed: record::link_at(r, 36) as usize,
        places: record::link_at(r, 40) as usize,
    }
}

// ---- lines

fn put_line(answer: Answer, out: &mut [u8]) -> usize
    requires { 128 ≤ length out.old }
    ensures { result ≤ 128 }
{
    let mut text = Text::at(out, 0);
    text.decimal(answer.number);
    text.number(answer.count);
    text.amount(answer.total);
    text.number(answer.links);
    text.number(answer.sum.0);
    text.byte(b'\n');
    text.end
}

fn write_line<W: Write>(writer: &mut W, answer: Answer) -> Option<()> {
    let mut out = [0u8; 128];
    let end = put_line(answer, &mut out);
    writer.write_all(&out[..end]).ok()
}

// ---- the file

// The next bytes of the file: none where there are too few, or no room for them.
fn read_start<R: Read>(file: &mut R, part: &mut [u8], n: usize) -> Option<()> {
    file.read_exact(part.get_mut(..n)?).ok()
}

// What the calls are run on: an archive, a new record or other bytes filed, and a list of amounts.
#[derive(Drop)]
struct Parts {
    archive: [u8; 131072],
    new: [u8; 73728],
    list: [i64; 4096],
}

impl Parts {
    // None where the call asks for more than the parts have, or its line can't be written.
    fn run_call<W: Write>(&mut self, writer: &mut W, head: Head) -> Option<()> {
        let archive = self.archive.get_mut(..head.size)?;
        let filed = self.new.get(..head.filed)?;
        let list = self.list.get_mut(..head.places)?;
        write_line(writer, head.call.answer(archive, filed, list))
    }

    // The next call: none at the file's end.
    fn run_next<R: Read, W: Write>(&mut self, file: &mut R, writer: &mut W) -> Option<()> {
        let mut bytes = [0u8; 44];
        file.read_exact(&mut bytes).ok()?;
        let head = head_of(&bytes);
        read_start(file, &mut self.archive, head.given)?;
        read_start(file, &mut self.new, head.filed)?;
        self.run_call(writer, head)
    }

    // The calls up to the first that can't be run, at most 65,536.
    fn run<R: Read, W: Write>(&mut self, file: &mut R, writer: &mut W) {
        for _ in 0..65536 {
            if self.run_next(file, writer).is_none() {
                return;
            }
        }
    }
}

fn main(rt: HostRuntime) {
    let Ok(mut file) = File::open(&rt, "calls") else {
        return;
    };
    let mut writer = rt.stdout();
    let mut parts = Parts {
        archive: [0; 131072],
        new: [0; 73728],
        list: [0; 4096],
    };
    parts.run(&mut file, &mut writer);
}
