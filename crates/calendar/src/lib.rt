// The calendar (document 02, 1): the date of a quarter, the quarter after it, and the delivery day.
#![tactic(auto)]

ghost use Rattle.std.specs.Prelude.{◌≡◌, not, ◌&&◌, [], ◌∷◌, ◌+◌, ◌%◌, ◌≤◌, ◌<◌, ◌^◌, leb, ltb, length};
ghost use Rattle.rules.specs.Calendar.{is_leap_year, year_length, month_length, in_year, days_of_years, date_of, day_after, next_month, last_quarter, delivery_day};
ghost use Rattle.calendar.specs.Clocks.{Passed, clock_after, CanAdvance, Begins};
ghost use Rattle.calendar.specs.Deliveries.{Marks, is_working_by_marks, passing};
ghost use Rattle.rules.specs.Results.{outcome_by};

use rules::{Date, Refusal};
use units::{DayNumber, QuarterNumber};

// 31 December 2099, 23:45.
pub const LAST_QUARTER: u64 = 3506400;

// ---- years and months

#[tactic(auto, unfolding(rules::specs::Calendar::is_leap_year))]
fn is_leap_year(year: u64) -> bool
    ensures { result ≡ is_leap_year year }
{
    if year % 4 != 0 {
        return false;
    }
    if year % 100 != 0 {
        return true;
    }
    year % 400 == 0
}

#[tactic(auto, using(crate::proofs::Dates::months))]
fn month_length(year: u64, month: u64) -> u64
    requires { (1 ≤ month) × (month ≤ 12) }
    ensures { result ≡ month_length year month }
{
    match month {
        2 => { if is_leap_year(year) { 29 } else { 28 } }
        4 | 6 | 9 | 11 => 30,
        _ => 31,
    }
}

// ---- the date of a day

// The days of so many years from 2000 on: every fourth has one more, of the hundreds every fourth alone.
#[tactic(auto, using(crate::proofs::Dates::days_by_division))]
fn days_of_years(years: u64) -> u64
    requires { years < 2 ^ 54 }
    ensures { result ≡ days_of_years years 2000 }
{
    365 * years + (years + 3) / 4 + (years + 399) / 400 - (years + 99) / 100
}

// The years from 2000 on that have passed when so many days have. 400 years have 146,097 days; so the first guess is a year off at most.
#[tactic(auto, using(crate::proofs::Dates::year_before, crate::proofs::Dates::year_after, crate::proofs::Dates::year_guessed))]
fn years_passed(days: u64) -> u64
    requires { days < 2 ^ 58 }
    ensures { Passed days result }
{
    let guess = days / 146097 * 400 + days % 146097 * 400 / 146097;
    if days < days_of_years(guess) {
        return guess - 1;
    }
    if days_of_years(guess + 1) <= days {
        return guess + 1;
    }
    guess
}

// A day of a year, counted from 1.
fn date_in(year: u64, day: u64) -> Date
    requires { (1 ≤ day) × (day ≤ year_length year) }
    ensures { result ≡ in_year year day }
{
    let mut left = day;
    for month in 1..12 {
        let length = month_length(year, month);
        if left <= length {
            return Date {
                year,
                month,
                day: left,
            };
        }
        left -= length;
    }
    Date {
        year,
        month: 12,
        day: left,
    }
}

// A day from 1 on is asked by a clause, here and below: delivery_day gives day 0, and a Date is the book's, whose month may be any number.
#[tactic(auto, using(crate::proofs::Dates::years_few, crate::proofs::Dates::date_is))]
fn date_of(day: DayNumber) -> Date
    requires { (1 ≤ day.0) × (day.0 ≤ 2 ^ 58) }
    ensures { result ≡ date_of day.0 }
{
    let passed = day.0 - 1;
    let years = years_passed(passed);
    date_in(2000 + years, passed - days_of_years(years) + 1)
}

// ---- the days of a measure's quarters

#[tactic(auto, using(crate::proofs::Dates::days_after))]
fn day_after(date: Date) -> Date
    requires { (1 ≤ date.month) × (date.month ≤ 12) × (date.year < 2 ^ 63) }
    ensures { result ≡ day_after date }
{
    if date.day < month_length(date.year, date.month) {
        return Date {
            day: date.day + 1,
            ..date
        };
    }
    if date.month < 12 {
        return Date {
            month: date.month + 1,
            day: 1,
            ..date
        };
    }
    Date {
        year: date.year + 1,
        month: 1,
        day: 1,
    }
}

// The day that a dated measure's quarter lies in, and the index along the measure of the quarter with which the next day begins.
#[derive(Clone, Copy)]
pub struct Clock {
    pub date: Date,
    pub until: u64,
}

// Of the first quarter, by its number.
#[tactic(auto, using(crate::proofs::Clocks::begins))]
pub fn clock_of(first: QuarterNumber) -> Clock
    requires { 1 ≤ first.0 }
    ensures { Begins first.0 result }
{
    let passed = first.0 - 1;
    let date = date_of(DayNumber(passed / 96 + 1));
    Clock {
        date,
        until: 96 - passed % 96,
    }
}

// Of the next quarter, which has this index: no division.
#[tactic(auto, unfolding(crate::specs::Clocks::clock_after))]
pub fn after(clock: Clock, index: u64) -> Clock
    requires { CanAdvance clock index }
    ensures { result ≡ clock_after clock index }
{
    if index < clock.until {
        return clock;
    }
    Clock {
        date: day_after(clock.date),
        until: clock.until + 96,
    }
}

// ---- the delivery day

// The days of a month from its first on, as many as the longest has, each with a mark for a holiday.
#[derive(Drop)]
struct Month {
    first: DayNumber,
    marks: [bool; 31],
}

// A listed day that is one of the month's gets its mark.
fn mark_day(month: &mut Month, day: u64)
    ensures { Marks (day ∷ []) month.old month.new }
{
    if day < month.first.0 {
        return;
    }
    let at = (day - month.first.0) as usize;
    if month.marks.len() <= at {
        return;
    }
    month.marks[at] = true;
}

// The whole list, in any order.
fn mark_days(month: &mut Month, holidays: &[u32])
    ensures { Marks holidays.now month.old month.new }
{
    for day in holidays {
        mark_day(month, *day as u64);
    }
}

// Weekdays are counted from Monday, 0.
fn is_working(weekday: u64, holiday: bool) -> bool
    ensures { result ≡ (ltb weekday 5 && not holiday) }
{
    (weekday < 5) & !holiday
}

fn weekday_after(weekday: u64) -> u64
    requires { weekday < 7 }
    ensures { result ≡ (weekday + 1) % 7 }
{
    if weekday < 6 { weekday + 1 } else { 0 }
}

// Of so many days of a month, the fourth that is neither marked nor at a weekend; 0, as in the book, where there is none.
fn fourth_working_day(month: &Month, days: usize) -> DayNumber
    requires { (1 ≤ month.now.first.0) × (month.now.first.0 < 2 ^ 58) × (days ≤ 31) }
    ensures { result.0 ≡ passing (is_working_by_marks month.now.first.0 month.now.marks) month.now.first.0 days 3 }
{
    let mut others: u64 = 3;
    let mut weekday = (month.first.0 + 4) % 7;
    for (passed, holiday) in month.marks[..days].iter().enumerate() {
        if is_working(weekday, *holiday) {
            if others == 0 {
                return DayNumber(month.first.0 + passed as u64);
            }
            others -= 1;
        }
        weekday = weekday_after(weekday);
    }
    DayNumber(0)
}

// The days of the month that a day lies in.
#[tactic(auto, using(crate::proofs::Days::month_found))]
fn days_of_month(day: DayNumber) -> u64
    requires { (1 ≤ day.0) × (day.0 ≤ 2 ^ 58) }
    ensures { result ≡ month_length (date_of day.0).year (date_of day.0).month }
{
    let date = date_of(day);
    month_length(date.year, date.month)
}

// The first day of the month after a day's.
#[tactic(auto, using(crate::proofs::Days::month_found, crate::proofs::Days::days_found, crate::proofs::Days::next_found))]
fn next_month(day: DayNumber) -> DayNumber
    requires { (1 ≤ day.0) × (day.0 ≤ 2 ^ 58) }
    ensures { result.0 ≡ next_month day.0 }
{
    let date = date_of(day);
    let length = month_length(date.year, date.month);
    DayNumber(day.0 + (length - date.day) + 1)
}

fn is_in_calendar(quarter: QuarterNumber) -> bool
    ensures { result ≡ (leb 1 quarter.0 && leb quarter.0 last_quarter) }
{
    (1..=LAST_QUARTER).contains(&quarter.0)
}

// The fourth working day of the month after the quarter's (001, 3.2.1); 0, as the host gets it, where that month has fewer.
pub fn delivery_day(quarter: QuarterNumber, holidays: &[u32]) -> Result<DayNumber, Refusal>
    ensures { outcome_by (λ d. d.0) result ≡ delivery_day quarter.0 holidays.now }
{
    if !is_in_calendar(quarter) {
        return Err(Refusal::NotInCalendar);
    }
    let first = next_month(DayNumber((quarter.0 - 1) / 96 + 1));
    let days = days_of_month(first) as usize;
    let mut month = Month {
        first,
        marks: [false; 31],
    };
    mark_days(&mut month, holidays);
    Ok(fourth_working_day(&month, days))
}
