// Currencies used and currencies with a curve are two sets: two masks in one integer each, set by shifts, their difference by and-not. Currency c is the binary
// digit c - 1.
ghost use Rattle.std.specs.Prelude.{true, false, ◌≡◌, ◌≤◌};
ghost use Rattle.paper.specs.Records.{currencies};
ghost use Rattle.arrays.specs.Masks.{curved_by, with_currency, missing_in, last_of, marked_by};

use paper::CURRENCIES;

#[derive(Clone, Copy)]
pub struct Masks {
    pub used: u32,
    pub curved: u32,
}

impl Masks {
    // A position marks its currency as used.
    pub fn with_used(self, currency: u32) -> Masks
        requires { (1 ≤ currency) × (currency ≤ currencies) }
        ensures { result ≡ marked_by false currency self }
    {
        let used = with_currency(self.used, currency);
        Masks { used, ..self }
    }

    // A curve marks its currency as curved.
    pub fn with_curve(self, currency: u32) -> Masks
        requires { (1 ≤ currency) × (currency ≤ currencies) }
        ensures { result ≡ marked_by true currency self }
    {
        let curved = with_currency(self.curved, currency);
        Masks { curved, ..self }
    }

    // The lowest currency used without a curve.
    pub fn lowest_missing(self) -> Option<u32>
        ensures { result ≡ missing_in self }
    {
        let lowest = (self.used & !self.curved).trailing_zeros() + 1;
        (lowest <= CURRENCIES as u32).then_some(lowest)
    }
}

pub fn has_curve(curved: u32, currency: u32) -> bool
    requires { (1 ≤ currency) × (currency ≤ currencies) }
    ensures { result ≡ curved_by curved currency }
{
    (curved >> (currency - 1)) % 2 == 1
}

fn with_currency(mask: u32, currency: u32) -> u32
    requires { (1 ≤ currency) × (currency ≤ currencies) }
    ensures { result ≡ with_currency mask currency }
{
    mask | (1 << (currency - 1))
}

// The last currency of a set; 0 where it has none.
pub fn last_of(mask: u32) -> u32
    ensures { result ≡ last_of mask }
{
    32 - mask.leading_zeros()
}
