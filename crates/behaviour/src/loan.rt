// Kind 5, an asset: in each bucket what is paid, prepaid and due as interest; the balance is carried from bucket to bucket.
ghost use Rattle.std.specs.Prelude.{◌+◌, ◌*◌, ◌<◌, ◌≤◌, ◌≡◌, length};
ghost use Rattle.paper.specs.Ladder as Ladder;
ghost use Rattle.paper.specs.Ladder.{buckets};
ghost use Rattle.paper.specs.Behaviour.{whole_rate, scheduled_at};
ghost use Rattle.fields.specs.Answers.{amounts_from};
ghost use Rattle.posting.specs.Parts.{AtMost};
ghost use Rattle.behaviour.specs.Rows.{SoundSchedule, loan_rows, loan_sums};
ghost use Rattle.behaviour.specs.Columns.{CoursesReached, rates};

use crate::amounts::{amount_of, sum_from};
use crate::course::{Course, Scheduled};
use crate::rates::{RATES, ROWS, rates_of};
use ladder::widths;
use paper::BUCKETS;
use scales::Thousands;

// One bucket at each of the three rates: its flows and their sums, and the balances after it. A balance waits for that of the bucket before, and for no other rate's: three are worked on at a time.
fn loan_column(
    body: &[u8],
    width: u64,
    remaining: Thousands,
    k: usize,
    courses: &mut [Course; RATES],
    rows: &mut [u64; ROWS],
)
    requires body_len { (length body.now ≡ 155) × (k < buckets) × (width ≡ Ladder.width k) }
    requires remaining_value { (remaining.0 ≡ scheduled_at (amounts_from body.now 3) k) × SoundSchedule (amounts_from body.now 3) (amounts_from body.now 79) }
    requires rates { AtMost whole_rate (rates courses.old) }
    requires reached { CoursesReached body.now (λ _. k) courses.old rows.old }
    ensures same_rates { rates courses.new ≡ rates courses.old }
    ensures reached { CoursesReached body.now (λ _. k + 1) courses.new rows.new }
{
    let bucket = Scheduled {
        width,
        principal: amount_of(body, 3, k),
        charge: amount_of(body, 79, k),
        remaining,
    };
    for (i, course) in courses.iter_mut().enumerate() {
        let at = BUCKETS * i + k;
        rows[at] = course.pass(bucket).0;
    }
}

// The rows of the three rates, and the sum of each.
pub fn loan_rows(body: &[u8], share: u32, rows: &mut [u64; ROWS], sums: &mut [u64; RATES])
    requires body_len { (length body.now ≡ 155) × (share ≤ 10000) }
    requires sound_schedule { SoundSchedule (amounts_from body.now 3) (amounts_from body.now 79) }
    ensures rows_after { rows.new ≡ loan_rows share body.now }
    ensures sums_after { sums.new ≡ loan_sums share body.now }
{
    let widths = widths();
    let mut remaining = sum_from(body, 3);
    let mut courses = rates_of(share).map(|rate| Course {
        rate,
        balance: remaining,
        sum: Thousands(0),
    });
    for (k, width) in widths.iter().enumerate() {
        let width = u64::from(*width);
        loan_column(body, width, remaining, k, &mut courses, rows);
        remaining.0 -= amount_of(body, 3, k).0;
    }
    *sums = courses.map(|course| course.sum.0);
}
