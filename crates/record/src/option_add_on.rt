// Kind 7, an option add-on: currency, side (1 sold, 2 bought), six signed values, one for each scenario.
ghost use Rattle.std.specs.Prelude.{◌≡◌};
ghost use Rattle.paper.specs.Refusals.{checked_as};
ghost use Rattle.paper.specs.Records.{option, currencies};
ghost use Rattle.paper.specs.Decode.{decode_option};
ghost use Rattle.record.specs.Answers.{values_of};

use crate::body::Body;
use fields::options::option_at;
use fields::side_at;
use paper::Fault;
use scales::SignedThousands;

#[derive(Clone, Copy)]
pub struct OptionAddOn {
    pub currency: u32,
    pub side: u32,
    pub up: SignedThousands,
    pub down: SignedThousands,
    pub steepener: SignedThousands,
    pub flattener: SignedThousands,
    pub short_up: SignedThousands,
    pub short_down: SignedThousands,
}

pub fn decode_option(body: Body<'_, 26>) -> Result<OptionAddOn, Fault>
    ensures { checked_as (λ s. option s.currency s.side (values_of s)) result ≡ decode_option currencies body.entry.bytes.now }
{
    let side = side_at(body.bytes, 1)?;
    let up = option_at(body.bytes, 2)?;
    let down = option_at(body.bytes, 6)?;
    let steepener = option_at(body.bytes, 10)?;
    let flattener = option_at(body.bytes, 14)?;
    let short_up = option_at(body.bytes, 18)?;
    let short_down = option_at(body.bytes, 22)?;
    Ok(OptionAddOn {
        currency: body.currency,
        side,
        up,
        down,
        steepener,
        flattener,
        short_up,
        short_down,
    })
}
