// Kinds 5 and 6: a rate in hundred-thousandths, from the share and a multiplier. The seven scenarios have three rates between them.
ghost use Rattle.std.specs.Prelude.{◌*◌, ◌≤◌, min, ◌≡◌};
ghost use Rattle.laws.specs.Lists.{tabulate};
ghost use Rattle.paper.specs.Behaviour.{whole_rate, behavioural_rate};
ghost use Rattle.behaviour.specs.Rows.{three_multipliers};

use paper::BUCKETS;

pub const RATES: usize = 3;

// A row of nineteen flows for each.
pub const ROWS: usize = RATES * BUCKETS;

fn rate_of(share: u32, multiplier: u32) -> u64
    requires { (share ≤ 10000) × (multiplier ≤ 12) }
    ensures { result ≡ min (share * multiplier) whole_rate }
{
    u64::from(share * multiplier).min(100_000)
}

// The base scenario's, the lower and the higher one.
pub fn rates_of(share: u32) -> [u64; RATES]
    requires { share ≤ 10000 }
    ensures { result ≡ tabulate (behavioural_rate three_multipliers share) 3 }
{
    [rate_of(share, 10), rate_of(share, 8), rate_of(share, 12)]
}
