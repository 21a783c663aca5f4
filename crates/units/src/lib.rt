// The units of document 01, each a type around one number: a power is never added to an energy or compared with a wind speed.
// A field of four bytes comes as a word, the number that it would be as a link; `twos word` is the signed number that it stands for.
#![tactic(auto)]

ghost use Rattle.std.specs.Prelude.{◌≡◌, true, ◌≤◌, ◌<◌, ◌^◌, ltb, pos};
ghost use Rattle.std.proofs.Math.IntN.{sub_ℕ};
ghost use Rattle.rules.specs.Numbers.{or_zero, within, smaller, larger};
ghost use Rattle.rules.specs.Archive.{twos};
ghost use Rattle.rules.specs.Terms.{is_power, is_nominal_power, is_curve_power, is_speed, is_irradiance};
ghost use Rattle.rules.specs.Booking.{signed};

use rules::Direction;

// ---- power

// In W. In range or not, since a field is read before it is tested: so the range is a clause where it is asked for, and no invariant. A word of
// four bytes is a u64 below 2^32 here, as record::link_at gives it: a u32 would ask more of callers.
#[derive(Clone, Copy, PartialEq, Eq, PartialOrd, Ord)]
pub struct Watt(pub i64);

// A field in two's complement.
pub fn watt_of(word: u64) -> Watt
    requires { word < 2 ^ 32 }
    ensures { result.0 ≡ twos word }
{
    Watt((word as u32).cast_signed() as i64)
}

fn is_within(low: Watt, high: Watt, a: Watt) -> bool
    ensures { result ≡ within low.0 high.0 a.0 }
{
    (low..=high).contains(&a)
}

// Measured power, limit and plan (01, 'From readings to exact fractions').
pub fn in_power_range(a: Watt) -> bool
    ensures { result ≡ is_power a.0 }
{
    is_within(Watt(-1000000000), Watt(1000000000), a)
}

pub fn is_nominal_power(a: Watt) -> bool
    ensures { result ≡ is_nominal_power a.0 }
{
    is_within(Watt(100000), Watt(1000000000), a)
}

pub fn is_curve_power(a: Watt) -> bool
    ensures { result ≡ is_curve_power a.0 }
{
    is_within(Watt(0), Watt(1000000000), a)
}

// For the limitation value (001, 3.1).
#[tactic(auto, unfolding(rules::specs::Numbers::smaller))]
pub fn smaller(a: Watt, b: Watt) -> Watt
    ensures { result.0 ≡ smaller a.0 b.0 }
{
    a.min(b)
}

#[tactic(auto, unfolding(rules::specs::Numbers::larger))]
pub fn larger(a: Watt, b: Watt) -> Watt
    ensures { result.0 ≡ larger a.0 b.0 }
{
    a.max(b)
}

// The three that follow are functions and not From, which asks nothing of its caller: not every power fits, and none of them may fail.

// A power that isn't below zero, as nominal and curve power are.
pub fn unsigned(a: Watt) -> u64
    requires { a.0 ≡ pos (or_zero a.0) }
    ensures { result ≡ or_zero a.0 }
{
    a.0 as u64
}

// A power raised by 1,000,000,000, for arithmetic without a sign.
pub fn raised(a: Watt) -> u64
    requires { is_power a.0 ≡ true }
    ensures { (a.0 ≡ sub_ℕ result 1000000000) × (result ≤ 2000000000) }
{
    (a.0 + 1000000000) as u64
}

// The way back, from a power or a sum of powers that was raised by so much in all.
pub fn lowered(n: u64, by: u64) -> Watt
    requires { (n < 2 ^ 63) × (by < 2 ^ 63) }
    ensures { result.0 ≡ sub_ℕ n by }
{
    Watt(n as i64 - by as i64)
}

// ---- speed

// The test of a speed's word and its reading are one comparison and one constructor, as an irradiance's are: a trait for both would be longer.

// Wind speed in tenths of m/s.
#[derive(Clone, Copy, PartialEq, Eq, PartialOrd, Ord)]
pub struct Speed(pub u64);

#[tactic(auto, using(crate::proofs::Words::word_within))]
pub fn is_speed(word: u64) -> bool
    requires { word < 2 ^ 32 }
    ensures { result ≡ is_speed (twos word) }
{
    word <= 1000
}

#[tactic(auto, using(crate::proofs::Words::word_natural))]
pub fn speed_of(word: u64) -> Speed
    requires word_bound { word < 2 ^ 32 }
    requires word_value { is_speed (twos word) ≡ true }
    ensures { (result.0 ≡ or_zero (twos word)) × (result.0 ≤ 1000) }
{
    Speed(word)
}

// ---- irradiance

// In W/m².
#[derive(Clone, Copy, PartialEq, Eq, PartialOrd, Ord)]
pub struct Irradiance(pub u64);

#[tactic(auto, using(crate::proofs::Words::word_within))]
pub fn is_irradiance(word: u64) -> bool
    requires { word < 2 ^ 32 }
    ensures { result ≡ is_irradiance (twos word) }
{
    word <= 2000
}

#[tactic(auto, using(crate::proofs::Words::word_natural))]
pub fn irradiance_of(word: u64) -> Irradiance
    requires word_bound { word < 2 ^ 32 }
    requires word_value { is_irradiance (twos word) ≡ true }
    ensures { (result.0 ≡ or_zero (twos word)) × (result.0 ≤ 2000) }
{
    Irradiance(word)
}

// ---- energy

// In Wh.
#[derive(Clone, Copy, PartialEq, Eq, PartialOrd, Ord)]
pub struct WattHour(pub i64);

// An amount with its sign, minus for the positive direction (01, 'Amounts').
pub fn booked(direction: Direction, amount: u64) -> WattHour
    requires { amount < 2 ^ 63 }
    ensures { result.0 ≡ signed direction amount }
{
    match direction {
        Direction::Positive => WattHour(-(amount as i64)),
        Direction::Negative => WattHour(amount as i64),
    }
}

// ---- time

// Number of a day: 1 is 1 January 2000 (document 02, 1).
#[derive(Clone, Copy, PartialEq, Eq, PartialOrd, Ord)]
pub struct DayNumber(pub u64);

// Number of a quarter-hour: 1 is 1 January 2000, 0:00, in UTC+1.
#[derive(Clone, Copy, PartialEq, Eq, PartialOrd, Ord)]
pub struct QuarterNumber(pub u64);
