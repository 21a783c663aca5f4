// A power curve as a table of powers by speed: its power at a speed, and the line from a point to the next (document 01, 'Curve').
#![tactic(auto)]

ghost use Rattle.std.specs.Prelude.{◌≡◌, ◌-◌, length};
ghost use Rattle.curve.specs.Tables.{table_reading, Readable, PowerAt};
ghost use Rattle.curve.specs.Lines.{Piece, point, filled};
ghost use Rattle.curve.specs.Answers.{reading_answer};

use units::{Speed, Watt};

// The speeds of the first and the last point; `powers` beside it holds the power at each speed from the one to the other.
// Two values, as Tabulates, Held and Means name them, since the table lies in memory that the caller lends to be filled; a slice, since a
// reference that needs no curve asks for no table.
#[derive(Clone, Copy)]
pub struct Curve {
    pub first: u64,
    pub last: u64,
}

// ---- the curve at a speed

// Three cases, as the book's read_curve has.
#[derive(Clone, Copy)]
enum CurveReading {
    Below,
    On(Watt),
    Above,
}

fn read_curve(curve: Curve, powers: &[u32], speed: Speed) -> CurveReading
    requires { Readable powers.now speed.0 }
    ensures { result ≡ reading_answer (table_reading curve powers.now speed.0) }
{
    if speed < Speed(curve.first) {
        return CurveReading::Below;
    }
    if Speed(curve.last) < speed {
        return CurveReading::Above;
    }
    let i = speed.0 as usize;
    CurveReading::On(units::watt_of(powers[i] as u64))
}

// Below the first point and above the last, 0.
pub fn power_at(curve: Curve, powers: &[u32], speed: Speed) -> Watt
    requires { Readable powers.now speed.0 }
    ensures { PowerAt curve powers.now speed.0 result.0 }
{
    match read_curve(curve, powers, speed) {
        CurveReading::Below => Watt(0),
        CurveReading::On(power) => power,
        CurveReading::Above => Watt(0),
    }
}

// ---- the line between two points

// The straight line from a point to the next, rounded down, at each speed from the one until the other. From a speed to the next
// its value changes by `change / width`, raised by 1,000,000,000 so that it isn't below zero. `slope` is that in parts of 2^-20,
// rounded up: over at most 1,000 speeds this adds less than 1 / width, which raises no quotient. So a cell waits for sums alone.
pub fn fill(powers: &mut [u32], s0: u64, p0: u64, s1: u64, p1: u64)
    requires { (length powers.old ≡ 1001) × Piece (point s0 p0) (point s1 p1) }
    ensures { powers.new ≡ filled (point s0 p0) (point s1 p1) (s1 - s0) s0 powers.old }
{
    let width = s1 - s0;
    let change = p1 + 1000000000 * width - p0;
    let slope = (1048576 * change + width - 1) / width;
    let mut risen: u64 = 0;
    let mut raised: u64 = 0;
    for speed in s0..s1 {
        powers[speed as usize] = (p0 + risen / 1048576 - raised) as u32;
        risen += slope;
        raised += 1000000000;
    }
}
