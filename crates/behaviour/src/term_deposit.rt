// Kind 6, a liability: from each bucket's amount the part at the scenario's rate, rounded down, moves to bucket 1; the rest stays.
ghost use Rattle.std.specs.Prelude.{◌+◌, ◌*◌, ◌/◌, ◌%◌, ◌<◌, ◌≤◌, ◌≡◌, length, get_or, if◌then◌else◌};
ghost use Rattle.laws.specs.Tests.{◌is◌};
ghost use Rattle.laws.specs.Lists.{joined};
ghost use Rattle.paper.specs.Scales.{billion};
ghost use Rattle.paper.specs.Ladder.{buckets};
ghost use Rattle.paper.specs.Behaviour.{whole_rate, moved};
ghost use Rattle.fields.specs.Answers.{amounts_from};
ghost use Rattle.posting.specs.Parts.{AtMost, trillion};
ghost use Rattle.behaviour.specs.Rows.{term_deposit_rows};
ghost use Rattle.behaviour.specs.Columns.{DepositReached};

use crate::amounts::amount_of;
use crate::rates::{RATES, ROWS, rates_of};
use paper::BUCKETS;
use scales::Thousands;

fn moved(rate: u64, amount: Thousands) -> Thousands
    requires { (rate ≤ whole_rate) × (amount.0 ≤ billion) }
    ensures { (result.0 ≡ moved rate amount.0) × (result.0 ≤ amount.0) }
{
    Thousands(amount.0 * rate / 100000)
}

// One bucket at each of the three rates: what stays in it, and what moves added to all that moved before.
fn withdrawn_column(
    body: &[u8],
    rates: &[u64; RATES],
    k: usize,
    rows: &mut [u64; ROWS],
    early: &mut [u64; RATES],
)
    requires body_len { (length body.now ≡ 79) × (k < buckets) × AtMost whole_rate rates.now }
    requires at_most { AtMost billion (amounts_from body.now 3) }
    requires deposit_reached { DepositReached rates.now body.now (λ _. k) rows.old early.old }
    ensures { DepositReached rates.now body.now (λ _. k + 1) rows.new early.new }
{
    let amount = amount_of(body, 3, k);
    for (i, rate) in rates.iter().enumerate() {
        let part = moved(*rate, amount);
        let at = BUCKETS * i + k;
        rows[at] = amount.0 - part.0;
        early[i] += part.0;
    }
}

// A number for each rate, added to its bucket 1.
fn raise_first(rows: &mut [u64; ROWS], early: &[u64; RATES])
    requires at_most { AtMost trillion rows.old }
    requires at_most_2 { AtMost trillion early.now }
    ensures { rows.new ≡ joined ◌+◌ 0 rows.old (λ j. if j % buckets is 0 then get_or early.now (j / buckets) 0 else 0) }
{
    for (i, more) in early.iter().enumerate() {
        let at = BUCKETS * i;
        rows[at] += *more;
    }
}

// The rows of the three rates.
pub fn withdrawn_rows(body: &[u8], share: u32) -> [u64; ROWS]
    requires body_len { (length body.now ≡ 79) × (share ≤ 10000) }
    requires at_most { AtMost billion (amounts_from body.now 3) }
    ensures { result ≡ term_deposit_rows share body.now }
{
    let rates = rates_of(share);
    let mut rows = [0u64; ROWS];
    let mut early = [0u64; RATES];
    for k in 0..BUCKETS {
        withdrawn_column(body, &rates, k, &mut rows, &mut early);
    }
    raise_first(&mut rows, &early);
    rows
}
