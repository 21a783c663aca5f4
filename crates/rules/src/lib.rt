// The types that the rule book (specs/) and the code of the other crates share. What they mean is said in specs/.
#![tactic(auto)]

pub mod kind;
pub mod refusal;

pub use refusal::Refusal;

// Technology of a plant (byte 1).
#[derive(Clone, Copy)]
pub enum Technology {
    Wind,
    Solar,
    Other,
}

// Settlement variant (byte 2): Spitzabrechnung, Pauschal-Abrechnung.
#[derive(Clone, Copy)]
pub enum Variant {
    Spitz,
    Pauschal,
}

// Direction of the redispatch (byte 1 of a measure).
#[derive(Clone, Copy)]
pub enum Direction {
    Positive,
    Negative,
}

// Execution (byte 2 of a measure): Aufforderungsfall, Duldungsfall, beidseitige Fixierung.
#[derive(Clone, Copy)]
pub enum Execution {
    Requested,
    Tolerated,
    Fixed,
}

// What a quarter's readings of October 2026 bound: nothing; the reference power T, by both or by nonavailability alone; the limitation
// value L, by nonavailability.
#[derive(Clone, Copy)]
pub enum Bounding {
    Unbounded,
    ReferenceByBoth,
    ReferenceByNonavailability,
    LimitationByNonavailability,
}

// A row of the plant factors (Anlagenfaktor): summer or winter, from this quarter of the day until that one, over midnight
// where `until` is the smaller; the factor is in ten-thousandths.
#[derive(Clone, Copy)]
pub struct FactorRow {
    pub summer: bool,
    pub from: u64,
    pub until: u64,
    pub factor: u64,
}

// A day of the Gregorian calendar; months and days are counted from 1.
#[derive(Clone, Copy)]
pub struct Date {
    pub year: u64,
    pub month: u64,
    pub day: u64,
}

// A price of energy in cents per MWh (document 02, 5).
#[derive(Clone, Copy)]
pub struct Price(pub i64);

// Money in millionths of a cent, the cost of 1 Wh at 1 cent per MWh.
#[derive(Clone, Copy)]
pub struct MillionthCent(pub i64);

// Money in whole cents, and what is left beside them in millionths of a cent.
#[derive(Clone, Copy)]
pub struct Money {
    pub cents: i64,
    pub remainder: u64,
}

// What a correction gives, as the book says it: the number of its refusal or 0, and the money, which is zero where it is refused.
#[derive(Clone, Copy)]
pub struct Corrected {
    pub refusal: u64,
    pub money: Money,
}
