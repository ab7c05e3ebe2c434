// Kind 7: sold values add to the currency's add-ons, bought ones subtract. They make no flow; 14 has sums of their own for them.
ghost use Rattle.std.specs.Prelude.{ℕ, ◌≡◌, pos, length, get_or};
ghost use Rattle.paper.specs.Scales.{billion};
ghost use Rattle.paper.specs.Records.{option, currencies};
ghost use Rattle.paper.specs.Refusals.{accepted};
ghost use Rattle.paper.specs.Flow.{sided};
ghost use Rattle.paper.specs.Decode.{decode_option};
ghost use Rattle.arrays.specs.Slots.{plus_ℤ};
ghost use Rattle.posting.specs.Parts.{AtMostℤ};
ghost use Rattle.posting.specs.Answers.{TakesOption};
ghost use Rattle.slotting.specs.Parts.{OptionParts};

use paper::{Fault, SHOCKED};
use posting::cells::sided;
use posting::room::admit;
use record::body::Body;
use record::option_add_on::decode_option;
use scales::SignedThousands;

fn add_values(addons: &mut [i64], side: u32, values: &[i64])
    requires values_len { length values.now ≡ length addons.old }
    requires fact { AtMostℤ billion addons.old }
    requires fact_2 { AtMostℤ billion values.now }
    ensures { addons.new ≡ plus_ℤ addons.old (λ j. sided side (get_or values.now j (pos 0))) }
{
    for j in 0..addons.len() {
        let value = sided(side, SignedThousands(values[j]));
        addons[j] += value.0;
    }
}

fn slot_values(
    side: u32,
    values: [i64; SHOCKED],
    sizes: &mut [u64],
    addons: &mut [i64],
) -> Result<(), Fault>
    requires values_bound { AtMostℤ billion values }
    requires option_parts { OptionParts sizes.old addons.old }
    ensures { (c : ℕ) → TakesOption (accepted (option c side values)) sizes addons result }
{
    admit(sizes, &values.map(|value| value.unsigned_abs()))?;
    add_values(addons, side, &values);
    Ok(())
}

pub fn take_option(body: Body<'_, 26>, sizes: &mut [u64], addons: &mut [i64]) -> Result<(), Fault>
    requires option_parts { OptionParts sizes.old addons.old }
    ensures { TakesOption (decode_option currencies body.entry.bytes.now) sizes addons result }
{
    let option = decode_option(body)?;
    let values = [
        option.up.0,
        option.down.0,
        option.steepener.0,
        option.flattener.0,
        option.short_up.0,
        option.short_down.0,
    ];
    slot_values(option.side, values, sizes, addons)
}
