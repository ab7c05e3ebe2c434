// A field is its value, unless that is bad. Each reader says what stands at its place in the body by the paper's definition of the field: the value, or the
// cause with the place of the field, counted from the record's first byte.
#![tactic(auto)]

ghost use Rattle.std.specs.Prelude.{◌≡◌, not, ◌+◌, ◌<◌, ◌≤◌, length};
ghost use Rattle.paper.specs.Refusals.{fault, result_of};
ghost use Rattle.paper.specs.Records.{currencies};
ghost use Rattle.paper.specs.Fields.{field, currency_at, side_at, months_at, days_at, period_at, count_at, share_at, category_at, shock_at};
ghost use Rattle.fields.specs.Answers.{as_it_is};

use crate::bytes::{byte_at, two_at};
use paper::{CURRENCIES, Fault, Refusal};

pub mod amounts;
pub mod bytes;
pub mod options;
pub mod rates;

// Which values are good, and which refusal a bad one earns, is the reader's to say.
fn field<T: Copy>(value: T, good: bool, cause: Refusal, at: usize) -> Result<T, Fault>
    requires { at < usize.MAX }
    ensures { result ≡ result_of as_it_is (field (λ _. not good) cause at value) }
{
    if good {
        Ok(value)
    } else {
        Err(Fault {
            cause,
            place: at + 1,
        })
    }
}

// Of a rule that a record breaks as a whole: the place is its first byte, the kind.
pub fn record_fault(cause: Refusal) -> Fault
    ensures { result ≡ fault cause 0 }
{
    Fault { cause, place: 0 }
}

pub fn currency_at(body: &[u8], at: usize) -> Result<u32, Fault>
    requires { at < length body.now }
    ensures { result ≡ result_of as_it_is (currency_at currencies body.now at) }
{
    let currency = byte_at(body, at);
    field(
        currency,
        (1..=CURRENCIES as u32).contains(&currency),
        Refusal::BadCurrency,
        at,
    )
}

pub fn side_at(body: &[u8], at: usize) -> Result<u32, Fault>
    requires { at < length body.now }
    ensures { result ≡ result_of as_it_is (side_at body.now at) }
{
    let side = byte_at(body, at);
    field(side, (1..=2).contains(&side), Refusal::BadSide, at)
}

pub fn months_at(body: &[u8], at: usize) -> Result<u32, Fault>
    requires { at + 2 ≤ length body.now }
    ensures { result ≡ result_of as_it_is (months_at body.now at) }
{
    let months = two_at(body, at);
    field(months, months <= 600, Refusal::BadTerm, at)
}

pub fn days_at(body: &[u8], at: usize) -> Result<u32, Fault>
    requires { at < length body.now }
    ensures { result ≡ result_of as_it_is (days_at body.now at) }
{
    let days = byte_at(body, at);
    field(days, days <= 30, Refusal::BadTerm, at)
}

pub fn period_at(body: &[u8], at: usize) -> Result<u32, Fault>
    requires { at < length body.now }
    ensures { result ≡ result_of as_it_is (period_at body.now at) }
{
    let period = byte_at(body, at);
    field(
        period,
        matches!(period, 1 | 3 | 6 | 12),
        Refusal::BadTerm,
        at,
    )
}

// The last month, counted from a start, is tested with the count. It is taken at 64 bits, where no start and no period can make it wrap.
pub fn count_at(start: u32, period: u32, body: &[u8], at: usize) -> Result<u32, Fault>
    requires { at + 2 ≤ length body.now }
    ensures { result ≡ result_of as_it_is (count_at start period body.now at) }
{
    let count = two_at(body, at);
    let last = u64::from(start) + u64::from(period) * u64::from(count);
    field(count, 1 <= count && last <= 600, Refusal::BadTerm, at)
}

pub fn share_at(body: &[u8], at: usize) -> Result<u32, Fault>
    requires { at + 2 ≤ length body.now }
    ensures { result ≡ result_of as_it_is (share_at body.now at) }
{
    let share = two_at(body, at);
    field(share, share <= 10000, Refusal::BadShare, at)
}

pub fn category_at(body: &[u8], at: usize) -> Result<u32, Fault>
    requires { at < length body.now }
    ensures { result ≡ result_of as_it_is (category_at body.now at) }
{
    let category = byte_at(body, at);
    field(
        category,
        (1..=3).contains(&category),
        Refusal::BadCategory,
        at,
    )
}

pub fn shock_at(body: &[u8], at: usize) -> Result<u32, Fault>
    requires { at + 2 ≤ length body.now }
    ensures { result ≡ result_of as_it_is (shock_at body.now at) }
{
    let shock = two_at(body, at);
    field(shock, shock <= 1000, Refusal::OutOfRange, at)
}
