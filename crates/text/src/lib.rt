// The program's lines as bytes (document 01, 'Calls on the archive'), and the words that they are made of.
#![tactic(auto)]

ghost use Rattle.std.specs.Prelude.{◌≡◌, ◌∷◌, [], ◌+◌, ◌≤◌, ◌<◌, length};
ghost use Rattle.rules.specs.Output.{decimal, signed_decimal, text_of, measure_line, quarter_line, refusal_line};
ghost use Rattle.text.specs.Writes.{HasRoom, Appends};

// The count of a number's digits.
fn width(n: u64) -> usize
    ensures { (result ≡ length (decimal n)) × (result ≤ 20) }
{
    let mut digits = 1;
    let mut rest = n;
    while 10 <= rest {
        digits += 1;
        rest /= 10;
    }
    digits
}

// Text written into lent bytes from a place on: what is written ends before `end`.
#[derive(Drop)]
pub struct Text<'a> {
    out: &'a mut [u8],
    pub end: usize,
}

impl<'a> Text<'a> {
    pub fn at(out: &'a mut [u8], at: usize) -> Text<'a>
        ensures { (result.out.ghost_name ≡ out.entry.ghost_name) × (result.out.now ≡ out.old) × (result.end ≡ at) }
    {
        Text { out, end: at }
    }

    pub fn byte(&mut self, byte: u8)
        requires { HasRoom self.old 1 }
        ensures { Appends self.old (byte ∷ []) 1 self.new }
    {
        self.out[self.end] = byte;
        self.end += 1;
    }

    // ---- numbers in decimal digits

    // Where they stay, from the last to the first: copied out of itoa's buffer, a line of short numbers takes a third more time.
    fn digits(&mut self, n: u64)
        requires { HasRoom self.old (length (decimal n)) }
        ensures { Appends self.old (decimal n) (length (decimal n)) self.new }
    {
        let end = self.end + width(n);
        itoa::write_digits(n, self.out, end);
        self.end = end;
    }

    pub fn decimal(&mut self, n: u64)
        requires { HasRoom self.old 20 }
        ensures { Appends self.old (decimal n) 20 self.new }
    {
        self.digits(n);
    }

    // ---- words of a line, each after a space

    fn space(&mut self)
        requires { HasRoom self.old 1 }
        ensures { Appends self.old (32 ∷ []) 1 self.new }
    {
        self.byte(b' ');
    }

    pub fn number(&mut self, n: u64)
        requires { HasRoom self.old 21 }
        ensures { Appends self.old (32 ∷ decimal n) 21 self.new }
    {
        self.space();
        self.decimal(n);
    }

    // After a minus sign below zero.
    pub fn amount(&mut self, z: i64)
        requires { HasRoom self.old 21 }
        ensures { Appends self.old (32 ∷ signed_decimal z) 21 self.new }
    {
        self.space();
        if z < 0 {
            self.byte(b'-');
        }
        self.digits(z.unsigned_abs());
    }

    // ---- lines

    // M p k count total links.
    pub fn measure(&mut self, p: u64, k: u64, count: u64, total: i64, links: u64)
        requires { HasRoom self.old 108 }
        ensures { Appends self.old (text_of (measure_line p k count total links)) 108 self.new }
    {
        self.byte(b'M');
        self.number(p);
        self.number(k);
        self.number(count);
        self.amount(total);
        self.number(links);
        self.byte(b'\n');
    }

    // Q place amount.
    pub fn quarter(&mut self, place: u64, amount: i64)
        requires { HasRoom self.old 108 }
        ensures { Appends self.old (text_of (quarter_line place amount)) 108 self.new }
    {
        self.byte(b'Q');
        self.number(place);
        self.amount(amount);
        self.byte(b'\n');
    }

    // E p k number.
    pub fn refusal(&mut self, p: u64, k: u64, number: u64)
        requires { HasRoom self.old 108 }
        ensures { Appends self.old (text_of (refusal_line p k number)) 108 self.new }
    {
        self.byte(b'E');
        self.number(p);
        self.number(k);
        self.number(number);
        self.byte(b'\n');
    }
}
