// The lines of one currency: U, Z and F for the base and each scenario, A, K.
ghost use Rattle.std.specs.Prelude.{◌≤◌, ◌≡◌, true};
ghost use Rattle.paper.specs.Records.{currencies};
ghost use Rattle.paper.specs.Flow.{scenarios};
ghost use Rattle.paper.specs.Detail.{tolerances_line, scenario_lines};
ghost use Rattle.arrays.specs.Masks.{curved_by};
ghost use Rattle.arrays.specs.Rooms.{cell_by};
ghost use Rattle.text.specs.Pages.{HasRoom, Adds};
ghost use Rattle.detail.specs.Behind.{longest_currency};
ghost use Rattle.detail.specs.Texts.{totals_in, currency_in};

use crate::behind::Behind;
use change::fill_tolerances;
use paper::{BUCKETS, KINDS, SCENARIOS, SECTION, SHOCKED};
use text::page::Page;

impl<'a> Behind<'a> {
    // U with currency and the tolerances of the six changes.
    fn put_tolerances(&self, page: &mut Page<'_>, currency: u32)
        requires le_currency { (1 ≤ currency) × (currency ≤ currencies) × (curved_by self.now.curved currency ≡ true) }
        requires room { HasRoom 156 page.old }
        ensures { Adds (tolerances_line (totals_in self.now) currency) page.old page.new }
    {
        let from = SECTION * (currency as usize - 1);
        let to = from + SECTION;
        let mut tolerances = [0i64; SHOCKED];
        fill_tolerances(&self.ledger[from..to], &mut tolerances);
        page.line(b'U', &[u64::from(currency)], &tolerances);
    }

    // For the base and each scenario Z with the nineteen rates, then F with the net flows.
    fn put_scenarios(&self, page: &mut Page<'_>, currency: u32)
        requires le_currency { (1 ≤ currency) × (currency ≤ currencies) }
        requires room { HasRoom 6496 page.old }
        ensures { Adds (scenario_lines (cell_by self.now.rates.now) (cell_by self.now.ledger.now) currency scenarios) page.old page.new }
    {
        let own = SECTION * (currency as usize - 1);
        for scenario in 0..SCENARIOS {
            let from = own + BUCKETS * scenario;
            let to = from + BUCKETS;
            let heads = [u64::from(currency), scenario as u64];
            page.line(b'Z', &heads, &self.rates[from..to]);
            page.line(b'F', &heads, &self.ledger[from..to]);
        }
    }

    pub(crate) fn put_currency(&self, page: &mut Page<'_>, currency: u32)
        requires le_currency { (1 ≤ currency) × (currency ≤ currencies) × (curved_by self.now.curved currency ≡ true) }
        requires room { HasRoom longest_currency page.old }
        ensures { Adds (currency_in self.now currency) page.old page.new }
    {
        let adds_from = SHOCKED * (currency as usize - 1);
        let adds_to = adds_from + SHOCKED;
        let counts_from = KINDS * (currency as usize - 1);
        let counts_to = counts_from + KINDS;
        let heads = [u64::from(currency)];
        self.put_tolerances(page, currency);
        self.put_scenarios(page, currency);
        page.line(b'A', &heads, &self.add_ons[adds_from..adds_to]);
        page.line(b'K', &heads, &self.counts[counts_from..counts_to]);
    }
}
