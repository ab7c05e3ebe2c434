// 14: sums of magnitudes, gross, the record under test included. Exactly 1,000,000,000 passes.
ghost use Rattle.std.specs.Prelude.{◌≡◌, length, get_or};
ghost use Rattle.paper.specs.Scales.{billion};
ghost use Rattle.arrays.specs.Slots.{plus, room_for};
ghost use Rattle.posting.specs.Parts.{AtMost, Admitted, trillion};

use paper::{Fault, Refusal};

fn has_room(sums: &[u64], more: &[u64]) -> bool
    requires more_len { length more.now ≡ length sums.now }
    requires at_most { AtMost billion sums.now }
    requires at_most_2 { AtMost trillion more.now }
    ensures { result ≡ room_for (λ j. get_or more.now j 0) sums.now (length sums.now) }
{
    sums.iter()
        .zip(more)
        .all(|(sum, m)| *sum + *m <= 1_000_000_000)
}

fn grow(sums: &mut [u64], more: &[u64])
    requires more_len { length more.now ≡ length sums.old }
    requires at_most { AtMost billion sums.old }
    requires at_most_2 { AtMost trillion more.now }
    ensures { sums.new ≡ plus sums.old (λ j. get_or more.now j 0) }
{
    for i in 0..sums.len() {
        sums[i] += more[i];
    }
}

// The sums grow by a record that 14 lets in. 14 is of the record as a whole: its place is the first byte.
pub fn admit(sums: &mut [u64], more: &[u64]) -> Result<(), Fault>
    requires more_len { length more.now ≡ length sums.old }
    requires at_most { AtMost billion sums.old }
    requires at_most_2 { AtMost trillion more.now }
    ensures { Admitted more.now sums.old result sums.new }
{
    if !has_room(sums, more) {
        return Err(Fault {
            cause: Refusal::OverLimit,
            place: 0,
        });
    }
    grow(sums, more);
    Ok(())
}
