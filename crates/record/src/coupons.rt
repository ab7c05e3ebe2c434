// Kind 2, fixed coupons: currency, side, period (1), count (2), coupon, principal.
ghost use Rattle.std.specs.Prelude.{◌≡◌};
ghost use Rattle.paper.specs.Refusals.{checked_as};
ghost use Rattle.paper.specs.Records.{flows, currencies};
ghost use Rattle.paper.specs.Decode.{decode_coupons};
ghost use Rattle.record.specs.Answers.{coupons_of};

use crate::body::Body;
use fields::amounts::amount_at;
use fields::{count_at, period_at, side_at};
use paper::Fault;
use scales::Thousands;

#[derive(Clone, Copy)]
pub struct Coupons {
    pub currency: u32,
    pub side: u32,
    pub period: u32,
    pub count: u32,
    pub coupon: Thousands,
    pub principal: Thousands,
}

pub fn decode_coupons(body: Body<'_, 13>) -> Result<Coupons, Fault>
    ensures { checked_as (λ s. flows s.currency (coupons_of s)) result ≡ decode_coupons currencies body.entry.bytes.now }
{
    let side = side_at(body.bytes, 1)?;
    let period = period_at(body.bytes, 2)?;
    let count = count_at(0, period, body.bytes, 3)?;
    let coupon = amount_at(body.bytes, 5)?;
    let principal = amount_at(body.bytes, 9)?;
    Ok(Coupons {
        currency: body.currency,
        side,
        period,
        count,
        coupon,
        principal,
    })
}
