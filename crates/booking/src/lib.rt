// Exact magnitudes booked with a carry that is lent: a whole sheet into a list (01, 'Amounts').
#![tactic(auto)]

ghost use Rattle.std.specs.Prelude.{◌≡◌, refl, ◌<◌, ◌≤◌, ◌^◌, ◌+◌, ◌*◌, ◌++◌, ◌∷◌, [], ℕ, ℤ, List, length, drop};
ghost use Rattle.std.specs.List.{flat_map};
ghost use Rattle.rules.specs.Numbers.{sumℤ};
ghost use Rattle.rules.specs.Booking.{amounts_of, signed};
ghost use Rattle.rules.specs.Encoding.{bits, double_word, encoded};
ghost use Rattle.booking.specs.Sheets.{Bookable, place_put, double_word_long};

use carry::{Carry, Divisor};
use rules::Direction;
use units::WattHour;

// Amounts and results as bytes (document 01, 'Calls on the archive'): 8 to a place, little-endian, in two's complement.

// A signed amount in two's complement, from its magnitude: minus for the positive direction.
pub fn bits_of(direction: Direction, amount: u64) -> u64
    ensures { result ≡ bits (signed direction amount) }
{
    match direction {
        Direction::Positive => 0u64.wrapping_sub(amount),
        Direction::Negative => amount,
    }
}

// What a list of amounts is made of.
trait Element: Copy {
    // how many of them an amount takes
    ghost size: { ℕ };

    ghost written: { ℤ → List Self };

    // Amount i.
    fn put(list: &mut [Self], i: usize, direction: Direction, amount: u64)
        requires room { size * i + size ≤ length list.old }
        requires fits { amount < 2 ^ 63 }
        ensures { list.new ≡ place_put list.old (size * i) (written (signed direction amount)) };

    ghost long: { (z : ℤ) → length (written z) ≡ size };
}

impl Element for i64 {
    ghost size = { 1 };

    ghost written = { λ z. z ∷ [] };

    ghost long = { λ z. refl };

    fn put(list: &mut [i64], i: usize, direction: Direction, amount: u64) {
        list[i] = units::booked(direction, amount).0;
    }
}

impl Element for u8 {
    ghost size = { 8 };

    ghost written = { λ z. double_word (bits z) };

    ghost long = { double_word_long };

    fn put(list: &mut [u8], i: usize, direction: Direction, amount: u64) {
        writing::put_place(list, i, bits_of(direction, amount));
    }
}

// The amounts of a sheet of exact magnitudes, into the list's first places; gives the magnitude of their total. Direction, divisor and
// sheet are no struct: a caller has them for one call, and would only name each a second time.
fn book<T: Element>(direction: Direction, divisor: Divisor, sheet: &[u64], list: &mut [T]) -> u64
    requires { Bookable divisor.denominator sheet.now (T.size * length sheet.now) (length list.old) }
    ensures booked { list.new ≡ flat_map T.written (amounts_of direction divisor.denominator sheet.now)
        ++ drop (T.size * length sheet.now) list.old }
    ensures total { signed direction result ≡ sumℤ (amounts_of direction divisor.denominator sheet.now) }
    ensures fits { result < 2 ^ 63 }
{
    let mut carry = Carry {
        remainder: 0,
        divisor,
    };
    let mut total = 0;
    // by its number, since a list of bytes has eight for each place
    for (i, magnitude) in sheet.iter().enumerate() {
        let amount = carry.book(*magnitude);
        T::put(list, i, direction, amount);
        total += amount;
    }
    total
}

// The same into a list of signed numbers; gives their total.
pub fn book_all(direction: Direction, divisor: Divisor, sheet: &[u64], list: &mut [i64]) -> WattHour
    requires { Bookable divisor.denominator sheet.now (length sheet.now) (length list.old) }
    ensures { (list.new ≡ amounts_of direction divisor.denominator sheet.now
        ++ drop (length sheet.now) list.old)
        × (result.0 ≡ sumℤ (amounts_of direction divisor.denominator sheet.now)) }
{
    units::booked(direction, book(direction, divisor, sheet, list))
}

// What settle writes, into a list of bytes; gives the magnitude of the total.
pub fn book_bytes(direction: Direction, divisor: Divisor, sheet: &[u64], list: &mut [u8]) -> u64
    requires { Bookable divisor.denominator sheet.now (8 * length sheet.now) (length list.old) }
    ensures { (list.new ≡ encoded (amounts_of direction divisor.denominator sheet.now)
        ++ drop (8 * length sheet.now) list.old)
        × (signed direction result ≡ sumℤ (amounts_of direction divisor.denominator sheet.now)) }
{
    book(direction, divisor, sheet, list)
}
