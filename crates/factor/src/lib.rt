// The plant factor (Anlagenfaktor) of solar Pauschal (001, 3.2.3.3), in ten-thousandths.
#![tactic(auto)]

ghost use Rattle.std.specs.Prelude.{◌≡◌};
ghost use Rattle.rules.specs.Reference.{is_summer, is_for, plant_factor};

use rules::FactorRow;

// The eight rows: summer or not, from this quarter of the day until that one, factor.
const ROWS: [FactorRow; 8] = [
    FactorRow {
        summer: true,
        from: 76,
        until: 24,
        factor: 0,
    },
    FactorRow {
        summer: true,
        from: 24,
        until: 36,
        factor: 2456,
    },
    FactorRow {
        summer: true,
        from: 36,
        until: 60,
        factor: 6189,
    },
    FactorRow {
        summer: true,
        from: 60,
        until: 76,
        factor: 2456,
    },
    FactorRow {
        summer: false,
        from: 67,
        until: 36,
        factor: 0,
    },
    FactorRow {
        summer: false,
        from: 36,
        until: 40,
        factor: 2796,
    },
    FactorRow {
        summer: false,
        from: 40,
        until: 56,
        factor: 5030,
    },
    FactorRow {
        summer: false,
        from: 56,
        until: 67,
        factor: 2796,
    },
];

// March to October.
fn is_summer(month: u64) -> bool
    ensures { result ≡ is_summer month }
{
    (3..=10).contains(&month)
}

// A row is for this season and quarter of the day; it goes over midnight where `until` is the smaller.
#[tactic(auto, unfolding(rules::specs::Reference::is_for))]
fn is_for(r: FactorRow, summer: bool, quarter: u64) -> bool
    ensures { result ≡ is_for summer quarter r }
{
    if r.summer != summer {
        return false;
    }
    if r.from < r.until {
        (r.from..r.until).contains(&quarter)
    } else {
        r.from <= quarter || quarter < r.until
    }
}

// The factor of the first row that is for the month's season and the quarter of the day. From the last row to the first and without a
// way out: so the rows compile to constants, where `find` from the first row on reads a table. Month and quarter of the day come from a date
// or from a record's bytes, in range or not, so no type has both.
pub fn plant_factor(month: u64, quarter: u64) -> u64
    ensures { result ≡ plant_factor month quarter }
{
    let summer = is_summer(month);
    let mut factor: u64 = 0;
    for r in ROWS.iter().rev() {
        if is_for(*r, summer, quarter) {
            factor = r.factor;
        }
    }
    factor
}
