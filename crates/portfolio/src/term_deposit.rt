// Kind 6: the rows of three rates, of which each scenario has one; all of them have one sum.
ghost use Rattle.paper.specs.Records.{currencies};
ghost use Rattle.paper.specs.Decode.{decode_term_deposit};
ghost use Rattle.posting.specs.Parts.{FlowParts};
ghost use Rattle.posting.specs.Answers.{TakesFlows};

use behaviour::amounts::row_sum;
use behaviour::rates::RATES;
use behaviour::term_deposit::withdrawn_rows;
use paper::{BUCKETS, Fault};
use posting::flows::enter_rows;
use record::body::Body;
use record::term_deposit::decode_term_deposit;

pub fn take_term_deposit(
    body: Body<'_, 79>,
    section: &mut [i64],
    sizes: &mut [u64],
) -> Result<(), Fault>
    requires flow_parts { FlowParts section.old sizes.old }
    ensures { TakesFlows (decode_term_deposit currencies body.entry.bytes.now) section sizes result }
{
    let deposit = decode_term_deposit(body)?;
    // Which of the three rates each scenario has (001, table 6).
    let which = [0usize, 2, 1, 1, 2, 2, 1];
    let rows = withdrawn_rows(body.bytes, deposit.share);
    let sums = [row_sum(&rows[0..BUCKETS]).0; RATES];
    enter_rows(&rows, &which, 2, &sums, section, sizes)
}
