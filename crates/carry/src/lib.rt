// The carry of a measure, lent to the booking step and updated there quarter by quarter (01, 'Amounts').
#![tactic(auto)]

ghost use Rattle.std.specs.Prelude.{◌≡◌, ◌<◌, ◌≤◌, ◌^◌};
ghost use Rattle.carry.specs.Carrying.{booked_of, parts_of};

// ---- division

// A division's quotient and remainder. What is divided and by what stay two parameters, and that it isn't zero a clause: a magnitude is new in
// every quarter, and a struct of both would be made for one division.
#[derive(Clone, Copy)]
struct Parts {
    whole: u64,
    rest: u64,
}

fn divided(n: u64, d: u64) -> Parts
    requires { 0 < d }
    ensures { result ≡ parts_of n d }
{
    Parts {
        whole: n / d,
        rest: n % d,
    }
}

// By the inverse of d, n / d for most n where that is below 2^27: the bits of n from 4 below d's highest on, times the inverse.
fn estimate(n: u64, d: u64, inverse: u64) -> u64
    ensures { result < 2 ^ 32 }
{
    let down = 59 - d.leading_zeros() % 60;
    let high = (n >> down) % 4294967296;
    high * (inverse % 4294967296) >> 36
}

// The estimate, if what is left of n shows it right; a division otherwise.
fn by_estimate(n: u64, d: u64, inverse: u64) -> Parts
    requires { (0 < d) × (d < 2 ^ 32) }
    ensures { result ≡ parts_of n d }
{
    let whole = estimate(n, d, inverse);
    let product = whole * d;
    if product <= n {
        let rest = n - product;
        if rest < d {
            return Parts { whole, rest };
        }
    }
    divided(n, d)
}

// What magnitudes are divided by. With an inverse beside the denominator few of them need a division; no amount depends on it.
#[derive(Clone, Copy)]
pub struct Divisor {
    pub denominator: u64,
    pub inverse: Option<u64>,
}

impl Divisor {
    // For so many magnitudes. The inverse is 2^(63 - up) over a denominator of 32 bits that begins with `up` zeros. There is none where an
    // estimate doesn't pay: fewer than 16 magnitudes, or a denominator that the rules fix, 4 × 1 or 4 × 10,000.
    pub fn for_count(denominator: u64, count: usize) -> Divisor
        requires { 0 < denominator }
        ensures { result.denominator ≡ denominator }
    {
        let inverse = if count < 16 || denominator == 4 || denominator == 40000 {
            None
        } else {
            let up = denominator.leading_zeros() % 32;
            Some((u64::MAX >> (up + 1)) / denominator)
        };
        Divisor {
            denominator,
            inverse,
        }
    }
}

// ---- the carry

// What is carried on to the next quarter, less than 1 Wh: `remainder` over the divisor's denominator.
#[derive(Clone, Copy)]
pub struct Carry {
    pub remainder: u64,
    pub divisor: Divisor,
}

impl Carry {
    // Where the denominator is 4 × 1: a second division by 4 is quicker than a test, and the next quarter waits for less.
    fn book_by_four(&mut self, magnitude: u64) -> u64
        requires { (self.old.remainder < 4) × (self.old.divisor.denominator ≡ 4) }
        ensures { (result ≡ (booked_of self.old magnitude).amount)
            × (self.new ≡ (booked_of self.old magnitude).carry) }
    {
        let rest = self.remainder + magnitude % 4;
        self.remainder = rest % 4;
        magnitude / 4 + rest / 4
    }

    // By the magnitude's quotient and remainder, which alone are computed with: what is carried makes at most one Wh more.
    fn book_parts(&mut self, magnitude: u64, parts: Parts) -> u64
        requires small { (self.old.remainder < self.old.divisor.denominator) × (self.old.divisor.denominator ≤ 2 ^ 63) }
        requires parts_value { parts ≡ parts_of magnitude self.old.divisor.denominator }
        ensures { (result ≡ (booked_of self.old magnitude).amount)
            × (self.new ≡ (booked_of self.old magnitude).carry) }
    {
        let d = self.divisor.denominator;
        let left = self.remainder + parts.rest;
        if left < d {
            self.remainder = left;
            parts.whole
        } else {
            self.remainder = left - d;
            parts.whole + 1
        }
    }

    // One magnitude booked. The division is the magnitude's alone, so that it doesn't wait for the quarter before: by the estimate where
    // there is an inverse for it, by a constant, which is quicker, where the rules fix the denominator, and else as it is.
    pub fn book(&mut self, magnitude: u64) -> u64
        requires { (self.old.remainder < self.old.divisor.denominator) × (self.old.divisor.denominator ≤ 2 ^ 63) }
        ensures amount { result ≡ (booked_of self.old magnitude).amount }
        ensures carry { self.new ≡ (booked_of self.old magnitude).carry }
    {
        let d = self.divisor.denominator;
        match self.divisor.inverse {
            Some(inverse) if d < 4294967296 => self.book_parts(
                magnitude,
                by_estimate(magnitude, d, inverse),
            ),
            _ if d == 40000 => self.book_parts(magnitude, divided(magnitude, 40000)),
            _ if d == 4 => self.book_by_four(magnitude),
            _ => self.book_parts(magnitude, divided(magnitude, d)),
        }
    }
}
