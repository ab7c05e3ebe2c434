// An option's value in one scenario.
ghost use Rattle.std.specs.Prelude.{◌≡◌, ◌+◌, ◌≤◌, length};
ghost use Rattle.paper.specs.Refusals.{result_of};
ghost use Rattle.paper.specs.Fields.{option_at};
ghost use Rattle.fields.specs.Answers.{signed_thousands};

use crate::bytes::signed_at;
use crate::field;
use paper::{Fault, Refusal};
use scales::SignedThousands;

// A value of -2^31 has the magnitude 2^31.
pub fn option_at(body: &[u8], at: usize) -> Result<SignedThousands, Fault>
    requires { at + 4 ≤ length body.now }
    ensures { result ≡ result_of signed_thousands (option_at body.now at) }
{
    let value = SignedThousands(signed_at(body, at));
    field(
        value,
        (-1000000000..=1000000000).contains(&value.0),
        Refusal::TooLarge,
        at,
    )
}
