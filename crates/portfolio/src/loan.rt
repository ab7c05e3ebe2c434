// Kind 5: the rows of three rates, of which each scenario has one.
ghost use Rattle.paper.specs.Records.{currencies};
ghost use Rattle.paper.specs.Decode.{decode_loan};
ghost use Rattle.posting.specs.Parts.{FlowParts};
ghost use Rattle.posting.specs.Answers.{TakesFlows};

use behaviour::loan::loan_rows;
use behaviour::rates::{RATES, ROWS};
use paper::Fault;
use posting::flows::enter_rows;
use record::body::Body;
use record::loan::decode_loan;

pub fn take_loan(body: Body<'_, 155>, section: &mut [i64], sizes: &mut [u64]) -> Result<(), Fault>
    requires flow_parts { FlowParts section.old sizes.old }
    ensures { TakesFlows (decode_loan currencies body.entry.bytes.now) section sizes result }
{
    let loan = decode_loan(body)?;
    // Which of the three rates each scenario has (001, table 5).
    let which = [0usize, 1, 2, 1, 2, 1, 2];
    let mut rows = [0u64; ROWS];
    let mut sums = [0u64; RATES];
    loan_rows(body.bytes, loan.share, &mut rows, &mut sums);
    enter_rows(&rows, &which, 1, &sums, section, sizes)
}
