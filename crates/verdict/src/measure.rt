// Over currencies: the sums of losses, and the greatest of them. A list of changes has six for each currency; those past the last currency with a curve
// are nil and not looked at.
ghost use Rattle.std.specs.Prelude.{◌≡◌, ◌≤◌};
ghost use Rattle.laws.specs.Integers.{up};
ghost use Rattle.paper.specs.Records.{currencies};
ghost use Rattle.paper.specs.Flow.{shocked};
ghost use Rattle.paper.specs.Verdict.{scenario_sum, measure, worst};
ghost use Rattle.arrays.specs.Rooms.{listed};
ghost use Rattle.verdict.specs.Figures.{Figures};

use paper::{CHANGES, SCENARIOS, SHOCKED};
use scales::{SignedThousands, Thousands};

// The loss, with no gain to set against it.
fn positive(change: SignedThousands) -> Thousands
    ensures { result.0 ≡ up change.0 }
{
    Thousands(change.0.max(0) as u64)
}

// A scenario's sum adds the positive changes over currencies.
pub fn scenario_sum(changes: &[i64; CHANGES], last: usize, scenario: usize) -> Thousands
    requires le_scenario { (1 ≤ scenario) × (scenario ≤ shocked) }
    requires figures { Figures last changes.now }
    ensures { result.0 ≡ scenario_sum currencies (listed changes.now) scenario }
{
    let mut total = Thousands(0);
    for c in 0..last {
        let change = SignedThousands(changes[SHOCKED * c + (scenario - 1)]);
        total.0 += positive(change).0;
    }
    total
}

// The greatest of the six sums, and the smallest scenario number that reaches it, 0 if it is 0.
#[derive(Clone, Copy)]
pub struct Greatest {
    pub sum: Thousands,
    pub scenario: u64,
}

pub fn greatest_sum(changes: &[i64; CHANGES], last: usize) -> Greatest
    requires { Figures last changes.now }
    ensures sum_value { result.sum.0 ≡ measure currencies (listed changes.now) }
    ensures scenario_value { result.scenario ≡ worst currencies (listed changes.now) }
{
    let mut greatest = Thousands(0);
    let mut reached = 0;
    for scenario in 1..SCENARIOS {
        let sum = scenario_sum(changes, last, scenario);
        if greatest.0 < sum.0 {
            greatest = sum;
            reached = scenario as u64;
        }
    }
    Greatest {
        sum: greatest,
        scenario: reached,
    }
}
