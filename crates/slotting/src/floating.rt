// Kind 3: principal and coupon both fall at the reset.
ghost use Rattle.paper.specs.Records.{currencies};
ghost use Rattle.paper.specs.Decode.{decode_floating};
ghost use Rattle.posting.specs.Parts.{FlowParts};
ghost use Rattle.posting.specs.Answers.{TakesFlows};

use due::amount::slot_due;
use paper::Fault;
use record::body::Body;
use record::floating::decode_floating;
use scales::Thousands;

pub fn take_floating(
    body: Body<'_, 13>,
    section: &mut [i64],
    sizes: &mut [u64],
) -> Result<(), Fault>
    requires flow_parts { FlowParts section.old sizes.old }
    ensures { TakesFlows (decode_floating currencies body.entry.bytes.now) section sizes result }
{
    let position = decode_floating(body)?;
    slot_due(
        position.side,
        position.months,
        position.days,
        Thousands(position.principal.0 + position.coupon.0),
        section,
        sizes,
    )
}
