// Kind 9, floating with a spread: kind 3's 13 bytes, then period (1), count (2), spread.
ghost use Rattle.std.specs.Prelude.{◌≡◌};
ghost use Rattle.paper.specs.Refusals.{checked_as};
ghost use Rattle.paper.specs.Records.{flows, currencies};
ghost use Rattle.paper.specs.Decode.{decode_floating_spread};
ghost use Rattle.record.specs.Answers.{floating_spread_of};

use crate::body::Body;
use crate::floating::{Floating, decode_floating};
use fields::amounts::amount_at;
use fields::{count_at, period_at};
use paper::Fault;
use scales::Thousands;

#[derive(Clone, Copy)]
pub struct FloatingSpread {
    pub floating: Floating,
    pub period: u32,
    pub count: u32,
    pub spread: Thousands,
}

// The last month is counted from the reset.
pub fn decode_floating_spread(body: Body<'_, 20>) -> Result<FloatingSpread, Fault>
    ensures { checked_as (λ s. flows s.floating.currency (floating_spread_of s)) result ≡ decode_floating_spread currencies body.entry.bytes.now }
{
    let floating = decode_floating(Body::new(&body.bytes[..13], body.currency))?;
    let period = period_at(body.bytes, 13)?;
    let count = count_at(floating.months, period, body.bytes, 14)?;
    let spread = amount_at(body.bytes, 16)?;
    Ok(FloatingSpread {
        floating,
        period,
        count,
        spread,
    })
}
