// Kind 3, floating: currency, side, months (2), days (1), principal, coupon.
ghost use Rattle.std.specs.Prelude.{◌≡◌};
ghost use Rattle.paper.specs.Refusals.{checked_as};
ghost use Rattle.paper.specs.Records.{flows, currencies};
ghost use Rattle.paper.specs.Decode.{decode_floating};
ghost use Rattle.record.specs.Answers.{floating_of};

use crate::body::Body;
use fields::amounts::amount_at;
use fields::{days_at, months_at, side_at};
use paper::Fault;
use scales::Thousands;

#[derive(Clone, Copy)]
pub struct Floating {
    pub currency: u32,
    pub side: u32,
    pub months: u32,
    pub days: u32,
    pub principal: Thousands,
    pub coupon: Thousands,
}

pub fn decode_floating(body: Body<'_, 13>) -> Result<Floating, Fault>
    ensures { checked_as (λ s. flows s.currency (floating_of s)) result ≡ decode_floating currencies body.entry.bytes.now }
{
    let side = side_at(body.bytes, 1)?;
    let months = months_at(body.bytes, 2)?;
    let days = days_at(body.bytes, 4)?;
    let principal = amount_at(body.bytes, 5)?;
    let coupon = amount_at(body.bytes, 9)?;
    Ok(Floating {
        currency: body.currency,
        side,
        months,
        days,
        principal,
        coupon,
    })
}
