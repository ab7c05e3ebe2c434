// Kinds 8 and 10: a curve gives its currency the rates of all seven scenarios.
ghost use Rattle.std.specs.Prelude.{◌≡◌, ◌+◌, ◌≤◌, length};
ghost use Rattle.paper.specs.Ledger.{section_size};
ghost use Rattle.paper.specs.Records.{currencies};
ghost use Rattle.paper.specs.Decode.{decode_curve, decode_listed_curve};
ghost use Rattle.paper.specs.Refusals.{checked_as};
ghost use Rattle.record.specs.Answers.{curve_record};
ghost use Rattle.posting.specs.Answers.{CurveTaken};
ghost use Rattle.slotting.specs.Parts.{RateParts, Enterable};

use curve::fill_section;
use fields::rates::rates_at;
use paper::{BUCKETS, Fault};
use record::body::Body;
use record::curves::{Curve, decode_curve, decode_listed_curve};

// The rates begin at `from` in the body.
fn enter_curve(
    decoded: Result<Curve, Fault>,
    body: &[u8],
    from: usize,
    rates: &mut [i32],
) -> Result<(), Fault>
    requires from_in_bounds { from + 76 ≤ length body.now }
    requires rates_len { length rates.old ≡ section_size }
    requires enterable { Enterable decoded body.now from rates.old }
    ensures { CurveTaken (checked_as (curve_record body.now from) decoded) rates.old result rates.new }
{
    let curve = decoded?;
    let mut base = [0i64; BUCKETS];
    // The decoder has found them good: here they are set down.
    let _ = rates_at(body, from, &mut base);
    fill_section(&base, curve.shocks, rates);
    Ok(())
}

pub fn take_curve(curved: bool, body: Body<'_, 83>, rates: &mut [i32]) -> Result<(), Fault>
    requires rate_parts { RateParts curved rates.old }
    ensures { CurveTaken (decode_curve currencies (λ _. curved) body.entry.bytes.now) rates.old result rates.new }
{
    enter_curve(decode_curve(curved, body), body.bytes, 1, rates)
}

pub fn take_listed_curve(curved: bool, body: Body<'_, 81>, rates: &mut [i32]) -> Result<(), Fault>
    requires rate_parts { RateParts curved rates.old }
    ensures { CurveTaken (decode_listed_curve currencies (λ _. curved) body.entry.bytes.now) rates.old result rates.new }
{
    enter_curve(decode_listed_curve(curved, body), body.bytes, 5, rates)
}
