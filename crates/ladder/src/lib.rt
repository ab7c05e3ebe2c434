// The time ladder (01, "Time ladder"; 001, table 3), and the exponent that a rate and a midpoint make.
#![tactic(auto)]

ghost use Rattle.std.specs.Prelude.{◌≡◌, ◌<◌, ◌≤◌};
ghost use Rattle.paper.specs.Ladder.{buckets, bucket_of, midpoints, widths};
ghost use Rattle.paper.specs.Sound.{Ranged};
ghost use Rattle.ladder.specs.Ends.{by_end};
ghost use Rattle.ladder.specs.Reach.{OnLadder, IsExponent};

use paper::BUCKETS;
use scales::{Millionths, TenThousandthYears};

// A rate times a midpoint, in units of 10^-10. The field is private: only `of` makes one.
#[derive(Clone, Copy)]
pub struct Exponent(i64);

impl Exponent {
    pub fn of(rate: Millionths, midpoint: TenThousandthYears) -> Self
        requires ranged { Ranged rate.0 }
        requires on_ladder { OnLadder midpoint.0 }
        ensures { IsExponent rate.0 midpoint.0 result.0 }
    {
        Self(rate.0 * midpoint.0)
    }

    pub fn units(self) -> i64
        ensures { result ≡ self.0 }
    {
        self.0
    }
}

// Of buckets 1 to 19, in ten-thousandths of a year.
static MIDPOINTS: [u32; BUCKETS] = [
    28, 417, 1667, 3750, 6250, 8750, 12500, 17500, 25000, 35000, 45000, 55000, 65000, 75000, 85000,
    95000, 125000, 175000, 250000,
];

pub fn midpoints() -> &'static [u32; BUCKETS]
    ensures { result.now ≡ midpoints }
{
    &MIDPOINTS
}

// Of buckets 1 to 19, in months.
static WIDTHS: [u32; BUCKETS] = [
    0, 1, 2, 3, 3, 3, 6, 6, 12, 12, 12, 12, 12, 12, 12, 12, 60, 60, 120,
];

pub fn widths() -> &'static [u32; BUCKETS]
    ensures { result.now ≡ widths }
{
    &WIDTHS
}

// In the months up to a bucket's end, which belongs to it: that bucket, or the next once the days are past the end's.
fn by_end(months: u32, days: u32, bucket: usize, end: u32, day: u32) -> usize
    requires { (months ≤ end) × (bucket < buckets) }
    ensures { result ≡ by_end (record { months = months; days = days }) (record { months = end; days = day }) bucket }
{
    if months < end {
        return bucket;
    }
    if days <= day { bucket } else { bucket + 1 }
}

// Up to two years, up to ten and after are three decisions, so that a late term is not held against every end.
fn within_two_years(months: u32, days: u32) -> usize
    requires { months ≤ 24 }
    ensures value { result ≡ bucket_of (record { months = months; days = days }) }
    ensures lower_bound { (1 ≤ result) × (result ≤ buckets) }
{
    match months {
        0..=1 => {
            if months < 1 {
                by_end(months, days, 1, 0, 1)
            } else {
                by_end(months, days, 2, 1, 0)
            }
        }
        2..=3 => by_end(months, days, 3, 3, 0),
        4..=6 => by_end(months, days, 4, 6, 0),
        7..=9 => by_end(months, days, 5, 9, 0),
        10..=12 => by_end(months, days, 6, 12, 0),
        13..=18 => by_end(months, days, 7, 18, 0),
        _ => by_end(months, days, 8, 24, 0),
    }
}

// The first range begins at 0, so that what it leaves over is one inequality.
fn within_ten_years(months: u32, days: u32) -> usize
    requires { (25 ≤ months) × (months ≤ 120) }
    ensures value { result ≡ bucket_of (record { months = months; days = days }) }
    ensures lower_bound { (1 ≤ result) × (result ≤ buckets) }
{
    match months {
        0..=36 => by_end(months, days, 9, 36, 0),
        37..=48 => by_end(months, days, 10, 48, 0),
        49..=60 => by_end(months, days, 11, 60, 0),
        61..=72 => by_end(months, days, 12, 72, 0),
        73..=84 => by_end(months, days, 13, 84, 0),
        85..=96 => by_end(months, days, 14, 96, 0),
        97..=108 => by_end(months, days, 15, 108, 0),
        _ => by_end(months, days, 16, 120, 0),
    }
}

pub fn bucket_of(months: u32, days: u32) -> usize
    ensures value { result ≡ bucket_of (record { months = months; days = days }) }
    ensures lower_bound { (1 ≤ result) × (result ≤ buckets) }
{
    match months {
        0..=120 => {
            if months <= 24 {
                within_two_years(months, days)
            } else {
                within_ten_years(months, days)
            }
        }
        121..=180 => by_end(months, days, 17, 180, 0),
        181..=240 => by_end(months, days, 18, 240, 0),
        _ => BUCKETS,
    }
}
