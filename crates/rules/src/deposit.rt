// Kind 4, a non-maturity deposit: its core is neither above the category's cap (9) nor too long on the average (10).
ghost use Rattle.std.specs.Prelude.{[], ◌∷◌, ◌≡◌, ◌+◌, ◌*◌, ◌≤◌, length, get_or};
ghost use Rattle.laws.specs.Tests.{◌below◌};
ghost use Rattle.paper.specs.Scales.{billion};
ghost use Rattle.paper.specs.Behaviour.{core_cap, average_cap, weighed_core};
ghost use Rattle.fields.specs.Answers.{amounts_from};

use fields::bytes::money_at;
use ladder::midpoints;
use scales::Thousands;

// The cap of categories 1, 2, 3.
fn cap_of(category: u32, first: u64, second: u64, third: u64) -> u64
    ensures { (result ≡ get_or (0 ∷ first ∷ second ∷ third ∷ []) category 0) × (result ≤ first + second + third) }
{
    match category {
        1 => first,
        2 => second,
        3 => third,
        _ => 0,
    }
}

// 9: so many per cent of the total.
pub fn above_cap(category: u32, total: Thousands, core: Thousands) -> bool
    requires { (total.0 ≤ billion) × (core.0 ≤ 19_000_000_000) }
    ensures { result ≡ (core_cap category * total.0 below 100 * core.0) }
{
    cap_of(category, 90, 70, 50) * total.0 < 100 * core.0
}

// 10: so many ten-thousandths of a year, on the average.
pub fn too_long(category: u32, core: Thousands, weighed: u64) -> bool
    requires { core.0 ≤ 19_000_000_000 }
    ensures { result ≡ (average_cap category * core.0 below weighed) }
{
    cap_of(category, 50_000, 45_000, 40_000) * core.0 < weighed
}

pub fn weighed_core(body: &[u8]) -> u64
    requires { length body.now ≡ 82 }
    ensures { result ≡ weighed_core (amounts_from body.now 6) }
{
    let mut weighed = 0;
    for (k, middle) in midpoints().iter().enumerate() {
        weighed += money_at(body, 6 + 4 * k).0 * u64::from(*middle);
    }
    weighed
}
