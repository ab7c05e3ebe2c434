// Kinds 8 and 10, a curve: currency and 19 signed rates, with three shocks that are typed (8) or listed (10). The rates are checked where they stand; the
// answer holds the other fields.
ghost use Rattle.std.specs.Prelude.{◌≡◌, ◌≤◌};
ghost use Rattle.paper.specs.Ladder.{buckets};
ghost use Rattle.paper.specs.Refusals.{checked_as};
ghost use Rattle.paper.specs.Records.{currencies};
ghost use Rattle.paper.specs.Decode.{drawn, decode_curve, decode_listed_curve};
ghost use Rattle.paper.specs.Sound.{Ranged, Listed};
ghost use Rattle.curve.specs.Shocked.{curve_of, Sized};
ghost use Rattle.record.specs.Answers.{curve_record, drawn_of};

use crate::body::Body;
use curve::first_out_of_range;
use fields::rates::rates_at;
use fields::{record_fault, shock_at};
use paper::{BUCKETS, Fault, Refusal, Shocks};
use published::listed_at;

#[derive(Clone, Copy)]
pub struct Curve {
    pub currency: u32,
    pub shocks: Shocks,
}

// Shocked rates come last. The rates begin at `from` in the body.
fn drawn(currency: u32, shocks: Shocks, rates: &[i64; BUCKETS], from: usize) -> Result<Curve, Fault>
    requires listed { Listed Ranged buckets rates.now }
    requires sized { Sized shocks × (from ≤ 5) }
    ensures { result ≡ drawn_of currency shocks (drawn currency (curve_of rates.now shocks) from) }
{
    if let Some(shocked) = first_out_of_range(rates, shocks) {
        return Err(Fault {
            cause: Refusal::OutOfRange,
            place: from + 1 + 4 * shocked,
        });
    }
    Ok(Curve { currency, shocks })
}

// Kind 8: parallel, short and long shock (2 each) after the rates. 12 where the currency has a curve already.
pub fn decode_curve(curved: bool, body: Body<'_, 83>) -> Result<Curve, Fault>
    ensures { checked_as (curve_record body.entry.bytes.now 1) result ≡ decode_curve currencies (λ _. curved) body.entry.bytes.now }
{
    if curved {
        return Err(record_fault(Refusal::SecondCurve));
    }
    let mut rates = [0i64; BUCKETS];
    rates_at(body.bytes, 1, &mut rates)?;
    let parallel = shock_at(body.bytes, 77)?;
    let short = shock_at(body.bytes, 79)?;
    let long = shock_at(body.bytes, 81)?;
    let shocks = Shocks {
        parallel,
        short,
        long,
    };
    drawn(body.currency, shocks, &rates, 1)
}

// Kind 10: edition (1) and code (3) before the rates. 12 likewise.
pub fn decode_listed_curve(curved: bool, body: Body<'_, 81>) -> Result<Curve, Fault>
    ensures { checked_as (curve_record body.entry.bytes.now 5) result ≡ decode_listed_curve currencies (λ _. curved) body.entry.bytes.now }
{
    if curved {
        return Err(record_fault(Refusal::SecondCurve));
    }
    let shocks = listed_at(body.bytes, 1)?;
    let mut rates = [0i64; BUCKETS];
    rates_at(body.bytes, 5, &mut rates)?;
    drawn(body.currency, shocks, &rates, 5)
}
