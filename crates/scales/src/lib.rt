// Rates, midpoints and money are counted on three scales (01, "What the product covers").
#![tactic(auto)]

ghost use Rattle.std.specs.Prelude.{◌≡◌, pos};

// Rates.
#[derive(Clone, Copy)]
pub struct Millionths(pub i64);

// Times.
#[derive(Clone, Copy)]
pub struct TenThousandthYears(pub i64);

// Money that has no sign: amounts, balances, sums of magnitudes, tolerances, capital.
#[derive(Clone, Copy)]
pub struct Thousands(pub u64);

// Money that has one: a flow of its side, the value of an option, a change.
#[derive(Clone, Copy)]
pub struct SignedThousands(pub i64);

impl From<u32> for TenThousandthYears {
    ghost from_gives = { λ count years. years.0 ≡ pos count };

    fn from(count: u32) -> Self {
        Self(i64::from(count))
    }
}
