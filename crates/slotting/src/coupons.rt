// Kind 2: a coupon at each period's end, the principal with the last.
ghost use Rattle.paper.specs.Records.{currencies};
ghost use Rattle.paper.specs.Decode.{decode_coupons};
ghost use Rattle.posting.specs.Parts.{FlowParts};
ghost use Rattle.posting.specs.Answers.{TakesFlows};

use due::schedule::{Schedule, slot_schedule};
use paper::Fault;
use record::body::Body;
use record::coupons::decode_coupons;

pub fn take_coupons(body: Body<'_, 13>, section: &mut [i64], sizes: &mut [u64]) -> Result<(), Fault>
    requires flow_parts { FlowParts section.old sizes.old }
    ensures { TakesFlows (decode_coupons currencies body.entry.bytes.now) section sizes result }
{
    let bond = decode_coupons(body)?;
    let coupons = Schedule {
        months: 0,
        days: 0,
        period: bond.period,
        count: bond.count,
        coupon: bond.coupon,
    };
    slot_schedule(
        bond.side,
        coupons,
        bond.period * bond.count,
        0,
        bond.principal,
        section,
        sizes,
    )
}
