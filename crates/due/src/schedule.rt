// Coupons at regular periods after a start, and one amount due at a term; the same in every scenario. How many coupons are due by the end of a
// bucket is worked out from the end, so there is no pass over the coupons.
ghost use Rattle.std.specs.Prelude.{ℕ, ◌+◌, ◌*◌, ◌-◌, ◌/◌, ◌%◌, ◌≤◌, min, ◌≡◌, get_or};
ghost use Rattle.laws.specs.Lists.{tabulate};
ghost use Rattle.paper.specs.Ladder.{buckets};
ghost use Rattle.paper.specs.Flow.{coupons_due};
ghost use Rattle.posting.specs.Parts.{FlowParts, Enters};
ghost use Rattle.due.specs.Schedules.{start_of, scheduled, Regular, month_ends, month_seen};

use ladder::bucket_of;
use paper::{BUCKETS, Fault};
use posting::flows::enter_row;
use scales::Thousands;

// A coupon at the end of each of so many periods after the start.
#[derive(Clone, Copy)]
pub struct Schedule {
    pub months: u32,
    pub days: u32,
    pub period: u32,
    pub count: u32,
    pub coupon: Thousands,
}

// The months by which buckets 1 to 19 end. Bucket 1 ends before the first month; no coupon is past month 600, nor seen past 601.
const MONTH_ENDS: [u32; BUCKETS] = [
    0, 1, 3, 6, 9, 12, 18, 24, 36, 48, 60, 72, 84, 96, 108, 120, 180, 240, 601,
];

fn month_seen(months: u32, days: u32) -> u32
    requires { months ≤ 600 }
    ensures { result ≡ month_seen (record { months = months; days = days }) }
{
    if days == 0 { months } else { months + 1 }
}

// Of 65,536, rounded up: so many months times it, over 65,536, are the whole periods in them, and a bucket needs no division of its own.
fn period_share(period: u32) -> u32
    requires { (1 ≤ period) × (period ≤ 12) }
    ensures { (result ≤ 65536) × ((months : ℕ) → months ≤ 601 → months * result / 65536 ≡ months / period) }
{
    (65535 + period) / period
}

fn due_by(end: u32, start: u32, share: u32, count: u32) -> u32
    requires { (end ≤ 601) × (share ≤ 65536) }
    ensures { result ≡ min count ((end - start) * share / 65536) }
{
    count.min(end.saturating_sub(start) * share / 65536)
}

// So many coupons are due by the end of each bucket.
fn due_by_ends(start: u32, share: u32, count: u32) -> [u32; BUCKETS]
    requires { share ≤ 65536 }
    ensures { result ≡ tabulate (λ k. min count ((get_or month_ends k 0 - start) * share / 65536)) buckets }
{
    let ends = MONTH_ENDS;
    let mut by = [0u32; BUCKETS];
    for k in 0..BUCKETS {
        by[k] = due_by(ends[k], start, share, count);
    }
    by
}

// Two passes, in which no bucket waits for the one before: the compiler writes both out, with the ends as numbers.
fn coupon_row(coupons: Schedule) -> [u64; BUCKETS]
    requires regular { Regular coupons }
    ensures { result ≡ tabulate (coupons_due (start_of coupons) coupons.period coupons.count coupons.coupon.0) buckets }
{
    let start = month_seen(coupons.months, coupons.days);
    let share = period_share(coupons.period);
    let by = due_by_ends(start, share, coupons.count);
    let each = coupons.coupon.0;
    let mut row = [0u64; BUCKETS];
    row[0] = (by[0] as u64) * each;
    for k in 1..BUCKETS {
        row[k] = ((by[k] - by[k - 1]) as u64) * each;
    }
    row
}

pub fn slot_schedule(
    side: u32,
    coupons: Schedule,
    months: u32,
    days: u32,
    amount: Thousands,
    section: &mut [i64],
    sizes: &mut [u64],
) -> Result<(), Fault>
    requires regular { Regular coupons × (amount.0 ≤ 2_000_000_000) }
    requires flow_parts { FlowParts section.old sizes.old }
    ensures { Enters (λ j. scheduled coupons (record { months = months; days = days }) amount.0 (j % buckets)) side (λ i. coupons.count * coupons.coupon.0 + amount.0) section sizes result }
{
    let size = Thousands((coupons.count as u64) * coupons.coupon.0 + amount.0);
    let mut row = coupon_row(coupons);
    let bucket = bucket_of(months, days) - 1;
    row[bucket] += amount.0;
    enter_row(&row, side, size, section, sizes)
}
