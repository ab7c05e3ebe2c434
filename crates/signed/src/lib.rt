// Billionths, rounded to whole numbers.
#![tactic(auto)]

ghost use Rattle.std.specs.Prelude.{◌≡◌, ◌*◌, ◌≤◌, nat_abs};
ghost use Rattle.laws.specs.Nearest.{nearest_ℤ};
ghost use Rattle.paper.specs.Scales.{billion};

// Over a billion, halves away from zero.
pub fn rounded(billionths: i64) -> i64
    requires { nat_abs billionths ≤ 7_000_000_000 * billion }
    ensures { result ≡ nearest_ℤ billionths billion }
{
    if billionths < 0 {
        (billionths - 500_000_000) / 1_000_000_000
    } else {
        (billionths + 500_000_000) / 1_000_000_000
    }
}
