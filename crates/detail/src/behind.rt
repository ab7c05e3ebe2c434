// Currency by currency, then the book as a whole.
ghost use Rattle.std.specs.Prelude.{◌*◌, ◌≤◌, ◌≡◌, [], length, if◌then◌else◌};
ghost use Rattle.paper.specs.Records.{currencies};
ghost use Rattle.paper.specs.Program.{curved_lines};
ghost use Rattle.arrays.specs.Masks.{curved_by};
ghost use Rattle.arrays.specs.Rooms.{totals_by};
ghost use Rattle.text.specs.Pages.{HasRoom, Adds};
ghost use Rattle.valuation.specs.Bounds.{Bounds};
ghost use Rattle.detail.specs.Behind.{Lengths, longest_currency, longest_behind};

use crate::standing::{Standing, put_closing};
use arrays::masks::has_curve;
use paper::CURRENCIES;
use text::page::Page;

// The working arrays of the book's records, how many there are by currency and kind, and which currencies have a curve.
#[derive(Drop)]
pub struct Behind<'a> {
    pub ledger: &'a [i64],
    pub rates: &'a [i32],
    pub add_ons: &'a [i64],
    pub counts: &'a [i64],
    pub curved: u32,
    pub ghost lengths: { Lengths ledger.now rates.now add_ons.now counts.now },
    pub ghost bounds: { Bounds (totals_by ledger.now add_ons.now rates.now) (curved_by curved) },
}

impl<'a> Behind<'a> {
    ghost use Rattle.detail.specs.Texts.{currency_in, behind_in};

    // No line where the currency has no curve.
    fn put_curved(&self, page: &mut Page<'_>, currency: u32)
        requires le_currency { (1 ≤ currency) × (currency ≤ currencies) }
        requires room { HasRoom longest_currency page.old }
        ensures { Adds (if curved_by self.now.curved currency then currency_in self.now currency else []) page.old page.new }
    {
        if has_curve(self.curved, currency) {
            self.put_currency(page, currency);
        }
    }

    fn put_currencies(&self, page: &mut Page<'_>)
        requires { HasRoom (longest_currency * currencies) page.old }
        ensures { Adds (curved_lines (curved_by self.now.curved) (currency_in self.now) currencies) page.old page.new }
    {
        for currency in 1..=CURRENCIES as u32 {
            self.put_curved(page, currency);
        }
    }

    // With the number of all records.
    pub fn put(&self, page: &mut Page<'_>, count: u64, standing: &Standing)
        requires { HasRoom longest_behind page.old }
        ensures text { Adds (behind_in self.now count standing.now) page.old page.new }
        ensures longest { length (behind_in self.now count standing.now) ≤ longest_behind }
    {
        self.put_currencies(page);
        put_closing(page, count, standing);
    }
}
