// Kind 4: one row of core and rest, the same in every scenario.
ghost use Rattle.paper.specs.Records.{currencies};
ghost use Rattle.paper.specs.Decode.{decode_deposit};
ghost use Rattle.posting.specs.Parts.{FlowParts};
ghost use Rattle.posting.specs.Answers.{TakesFlows};

use behaviour::deposit::core_row;
use paper::Fault;
use posting::flows::enter_row;
use record::body::Body;
use record::deposit::decode_deposit;

pub fn take_deposit(body: Body<'_, 82>, section: &mut [i64], sizes: &mut [u64]) -> Result<(), Fault>
    requires flow_parts { FlowParts section.old sizes.old }
    ensures { TakesFlows (decode_deposit currencies body.entry.bytes.now) section sizes result }
{
    let deposit = decode_deposit(body)?;
    let row = core_row(body.bytes, deposit.total);
    enter_row(&row, 2, deposit.total, section, sizes)
}
