// The power curve of a plant: its chain of points, read once into a table of powers by speed (document 01, 'Curve').
#![tactic(auto)]

ghost use Rattle.std.specs.Prelude.{◌≡◌};
ghost use Rattle.rules.specs.Results.{outcome};
ghost use Rattle.rules.specs.Settle.{points_of};
ghost use Rattle.place.specs.Places.{meant, Lies};
ghost use Rattle.curve.specs.Tables.{Spare};
ghost use Rattle.curve.specs.Lines.{point};
ghost use Rattle.points.specs.Answers.{CurveRead};
ghost use Rattle.points.specs.Steps.{PointFits, RecordFits, walk, with_point, with_record, answer_of};

use chains::Chain;
use curve::Curve;
use place::Place;
use record::Record;
use rules::{Refusal, kind};

// What a walk along the points has read so far: their count, whether all are in range and whether their speeds rise, the first one's
// speed, and the speed and power of the last one whose speed rises. The two flags stay: 9 comes before 10 wherever the two are met, so one
// Option<Refusal> would have to be weighed at every point.
#[derive(Clone, Copy)]
struct PointsRead {
    count: u64,
    allowed: bool,
    rising: bool,
    first: u64,
    last: u64,
    power: u64,
}

// One more point that is in range, counted already.
#[tactic(auto, unfolding(crate::specs::Steps::with_point))]
fn add_point(read: PointsRead, powers: &mut [u32], speed: u64, power: u64) -> PointsRead
    requires { PointFits powers.old read (point speed power) }
    ensures { walk result powers.new ≡ with_point (point speed power) (walk read powers.old) }
{
    let mut first = read.first;
    if read.count == 1 {
        first = speed;
    } else {
        if speed <= read.last {
            return PointsRead {
                rising: false,
                ..read
            };
        }
        curve::fill(powers, read.last, read.power, speed, power);
    }
    let i = speed as usize;
    powers[i] = power as u32;
    PointsRead {
        first,
        last: speed,
        power,
        ..read
    }
}

// One more point.
fn read_point(r: &Record, read: PointsRead, powers: &mut [u32]) -> PointsRead
    requires { RecordFits powers.old read }
    ensures { walk result powers.new ≡ with_record r.now (walk read powers.old) }
{
    let speed = record::link_at(r, 8);
    let power = record::watt_at(r, 12);
    let counted = PointsRead {
        count: read.count + 1,
        ..read
    };
    if units::is_speed(speed) & units::is_curve_power(power) {
        return add_point(
            counted,
            powers,
            units::speed_of(speed).0,
            units::unsigned(power),
        );
    }
    PointsRead {
        allowed: false,
        ..counted
    }
}

// The curve and the links followed, one to each point.
#[derive(Clone, Copy)]
pub struct PlantCurve {
    pub curve: Curve,
    pub links: u64,
}

// After the walk: 9, then 10.
#[tactic(auto, unfolding(crate::specs::Steps::answer_of))]
fn answer_of(read: PointsRead) -> Result<PlantCurve, Refusal>
    ensures { outcome result ≡ answer_of read }
{
    if !read.allowed {
        return Err(Refusal::OutOfRange);
    }
    if read.count < 2 {
        return Err(Refusal::BadCurve);
    }
    if !read.rising {
        return Err(Refusal::BadCurve);
    }
    let curve = Curve {
        first: read.first,
        last: read.last,
    };
    Ok(PlantCurve {
        curve,
        links: read.count,
    })
}

// The chain of points is walked whole (2, 3), then 9, 10. A table of zeros will do.
pub fn read_points(archive: &[u8], place: Place, powers: &mut [u32]) -> Result<PlantCurve, Refusal>
    requires lies { Lies archive.now place }
    requires spare { Spare powers.old }
    ensures { CurveRead (points_of archive.now (meant archive.now place)) result powers.new }
{
    let mut read = PointsRead {
        count: 0,
        allowed: true,
        rising: true,
        first: 0,
        last: 0,
        power: 0,
    };
    let first = record::link_of(archive, place.plant, 8);
    for step in Chain::starting(archive, place.used, kind::POINT, place.plant, first) {
        let n = step?;
        read = read_point(record::record_at(archive, n), read, powers);
    }
    answer_of(read)
}
