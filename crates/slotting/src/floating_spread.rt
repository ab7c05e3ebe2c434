// Kind 9: principal and coupon both fall at the reset, the spread at the end of each period after it.
ghost use Rattle.paper.specs.Records.{currencies};
ghost use Rattle.paper.specs.Decode.{decode_floating_spread};
ghost use Rattle.posting.specs.Parts.{FlowParts};
ghost use Rattle.posting.specs.Answers.{TakesFlows};

use due::schedule::{Schedule, slot_schedule};
use paper::Fault;
use record::body::Body;
use record::floating_spread::decode_floating_spread;
use scales::Thousands;

pub fn take_floating_spread(
    body: Body<'_, 20>,
    section: &mut [i64],
    sizes: &mut [u64],
) -> Result<(), Fault>
    requires flow_parts { FlowParts section.old sizes.old }
    ensures { TakesFlows (decode_floating_spread currencies body.entry.bytes.now) section sizes result }
{
    let position = decode_floating_spread(body)?;
    let floating = position.floating;
    let spreads = Schedule {
        months: floating.months,
        days: floating.days,
        period: position.period,
        count: position.count,
        coupon: position.spread,
    };
    slot_schedule(
        floating.side,
        spreads,
        floating.months,
        floating.days,
        Thousands(floating.principal.0 + floating.coupon.0),
        section,
        sizes,
    )
}
