// Kind 1: one amount due at a term.
ghost use Rattle.paper.specs.Records.{currencies};
ghost use Rattle.paper.specs.Decode.{decode_single};
ghost use Rattle.posting.specs.Parts.{FlowParts};
ghost use Rattle.posting.specs.Answers.{TakesFlows};

use due::amount::slot_due;
use paper::Fault;
use record::body::Body;
use record::single::decode_single;

pub fn take_single(body: Body<'_, 9>, section: &mut [i64], sizes: &mut [u64]) -> Result<(), Fault>
    requires flow_parts { FlowParts section.old sizes.old }
    ensures { TakesFlows (decode_single currencies body.entry.bytes.now) section sizes result }
{
    let flow = decode_single(body)?;
    slot_due(
        flow.side,
        flow.months,
        flow.days,
        flow.amount,
        section,
        sizes,
    )
}
