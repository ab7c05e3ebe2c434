// Curves and shocks (01, "Curves and shocks"; SRP31.90 to 31.93). Rates are millionths.
#![tactic(auto)]

ghost use Rattle.std.specs.Prelude.{◌≡◌, ◌<◌, ◌≤◌, pos, nat_abs, ◌*ℤ◌, length, get_or};
ghost use Rattle.std.specs.Bool.{then_some};
ghost use Rattle.laws.specs.Tests.{◌below◌, first};
ghost use Rattle.laws.specs.Lists.{tabulate};
ghost use Rattle.paper.specs.Scales.{billion};
ghost use Rattle.paper.specs.Ladder.{buckets};
ghost use Rattle.paper.specs.Ledger.{section_size};
ghost use Rattle.paper.specs.Curve.{rate_changes, shocked_rate};
ghost use Rattle.paper.specs.TurnedDown.{bad_rate, bad_shocked};
ghost use Rattle.paper.specs.Sound.{Ranged, Listed};
ghost use Rattle.curve.specs.Shocked.{curve_of, Sized, twisted, short_shares, shocked_section};

use paper::{BUCKETS, SCENARIOS, Shocks};
use scales::Millionths;
use signed::rounded;

// s, in billionths, of each bucket.
static SHORT_SHARES: [u32; BUCKETS] = [
    999300245, 989629152, 959181464, 910510361, 855345327, 803522574, 731615629, 645648526,
    535261429, 416862020, 324652467, 252839596, 196911675, 153354967, 119432968, 93014489,
    43936934, 12588142, 1930454,
];

fn short_shares() -> &'static [u32; BUCKETS]
    ensures { result.now ≡ short_shares }
{
    &SHORT_SHARES
}

// So much of a shock, where its share is so many billionths.
fn weighed(weight: i64, shock: u32, share: i64) -> i64
    requires { (nat_abs weight ≤ 100) × ((shock ≤ 1000) × (nat_abs share ≤ billion)) }
    ensures { (result ≡ weight *ℤ pos shock *ℤ share) × (nat_abs result ≤ 100_000_000_000_000) }
{
    weight * i64::from(shock) * share
}

// A change that twists the curve: the short shock goes by s, and the long one by the rest.
fn twist(shocks: Shocks, share: u32, short: i64, long: i64) -> Millionths
    requires sized { Sized shocks }
    requires share_le_billion { (share ≤ billion) × ((nat_abs short ≤ 100) × (nat_abs long ≤ 100)) }
    ensures result_value { result.0 ≡ twisted shocks share short long }
    ensures result_bound { nat_abs result.0 ≤ 200_000 }
{
    let s = i64::from(share);
    let by_short = weighed(short, shocks.short, s);
    let by_long = weighed(long, shocks.long, 1_000_000_000 - s);
    Millionths(rounded(by_short + by_long))
}

// The change of a scenario where the short share is s: none for the base.
fn change(shocks: Shocks, share: u32, scenario: usize) -> Millionths
    requires sized { Sized shocks }
    requires share_le_billion { share ≤ billion }
    ensures result_value { result.0 ≡ get_or (rate_changes shocks share) scenario (pos 0) }
    ensures result_bound { nat_abs result.0 ≤ 200_000 }
{
    let p = i64::from(shocks.parallel);
    match scenario {
        1 => Millionths(100 * p),
        2 => Millionths(-100 * p),
        3 => twist(shocks, share, -65, 90),
        4 => twist(shocks, share, 80, -60),
        5 => twist(shocks, share, 100, 0),
        6 => twist(shocks, share, -100, 0),
        _ => Millionths(0),
    }
}

fn outside(rate: Millionths) -> bool
    ensures { result ≡ bad_rate rate.0 }
{
    !(-50_000..=300_000).contains(&rate.0)
}

// Nineteen base rates in range, and three shocks that are not above their limit.
#[derive(Clone, Copy)]
pub struct Drawn<'a> {
    pub rates: &'a [i64; BUCKETS],
    pub shocks: Shocks,
    pub ghost listed: { Listed Ranged buckets rates.now },
    pub ghost sized: { Sized shocks },
}

impl Drawn<'_> {
    // The rate of a scenario in bucket k + 1: the base rate and the change.
    fn rate(&self, scenario: usize, k: usize) -> Millionths
        requires { k < buckets }
        ensures result_value { result.0 ≡ shocked_rate (curve_of self.now.rates.now self.now.shocks) scenario k }
        ensures result_bound { nat_abs result.0 ≤ 550_000 }
    {
        let base = Millionths(self.rates[k]);
        let moved = change(self.shocks, short_shares()[k], scenario);
        Millionths(base.0 + moved.0)
    }

    // Some scenario's rate in bucket k + 1 is out of range.
    fn out_of_range(&self, k: usize) -> bool
        requires { k < buckets }
        ensures { result ≡ bad_shocked (curve_of self.now.rates.now self.now.shocks) k }
    {
        (1..SCENARIOS).any(|scenario| outside(self.rate(scenario, k)))
    }

    // The nineteen rates of one scenario, in 32 bits each, which hold every shocked rate: half of what 64 would have to be cleared.
    pub fn fill_scenario(&self, scenario: usize, part: &mut [i32])
        requires { length part.old ≡ buckets }
        ensures { part.new ≡ tabulate (shocked_rate (curve_of self.now.rates.now self.now.shocks) scenario) buckets }
    {
        for (k, cell) in part.iter_mut().enumerate() {
            let rate = self.rate(scenario, k);
            *cell = rate.0 as i32;
        }
    }
}

// The seven scenarios, the base first: scenario i from cell 19 i on.
pub fn fill_section(rates: &[i64; BUCKETS], shocks: Shocks, section: &mut [i32])
    requires listed { Listed Ranged buckets rates.now }
    requires sized { Sized shocks }
    requires section_len { length section.old ≡ section_size }
    ensures { section.new ≡ shocked_section (curve_of rates.now shocks) }
{
    let curve = Drawn { rates, shocks };
    for scenario in 0..SCENARIOS {
        let start = BUCKETS * scenario;
        let end = start + BUCKETS;
        curve.fill_scenario(scenario, &mut section[start..end]);
    }
}

// The first bucket, from 0, in which some scenario's rate is out of range.
pub fn first_out_of_range(rates: &[i64; BUCKETS], shocks: Shocks) -> Option<usize>
    requires listed { Listed Ranged buckets rates.now }
    requires sized { Sized shocks }
    ensures { let bucket = first (bad_shocked (curve_of rates.now shocks)) 0 buckets in result ≡ then_some (bucket below buckets) bucket }
{
    let curve = Drawn { rates, shocks };
    (0..BUCKETS).find(|k| curve.out_of_range(*k))
}
