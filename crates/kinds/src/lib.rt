// The kinds in code: what each byte says, and the function of each kind.
#![tactic(auto)]

ghost use Rattle.std.specs.Prelude.{◌≡◌, ◌≤◌};
ghost use Rattle.paper.specs.Records.{body_length, curve_kind};
ghost use Rattle.arrays.specs.Arrays.{PartsHold};
ghost use Rattle.arrays.specs.Lent.{lent, before, after};
ghost use Rattle.record.specs.Answers.{IsBody};
ghost use Rattle.kinds.specs.Bodies.{TakesBody};
ghost use Rattle.kinds.specs.Kind.{kind_number};

pub use kind::Kind;
use paper::Fault;
use portfolio::deposit::take_deposit;
use portfolio::loan::take_loan;
use portfolio::term_deposit::take_term_deposit;
use record::body::Body;
use slotting::coupons::take_coupons;
use slotting::curves::{take_curve, take_listed_curve};
use slotting::floating::take_floating;
use slotting::floating_spread::take_floating_spread;
use slotting::option_add_on::take_option;
use slotting::single::take_single;

mod kind;

// The bytes of a kind's body; 0 where there is no such kind.
#[tactic(auto, using(crate::proofs::Numbers::unknown_length))]
pub fn body_length(kind: u8) -> usize
    ensures { (result ≡ body_length kind) × (result ≤ 155) }
{
    Kind::try_from(kind).map_or(0, Kind::body_length)
}

#[tactic(auto, using(crate::proofs::Numbers::unknown_curve))]
pub fn curve_kind(kind: u8) -> bool
    ensures { result ≡ curve_kind kind }
{
    Kind::try_from(kind).map_or(false, Kind::is_curve)
}

// A currency's own parts are lent to the function of the kind: one `match`.
pub fn take_body(
    kind: Kind,
    currency: u32,
    curved: bool,
    body: &[u8],
    section: &mut [i64],
    rates: &mut [i32],
    addons: &mut [i64],
    sizes: &mut [u64],
    options: &mut [u64],
) -> Result<(), Fault>
    requires body { IsBody (body_length (kind_number kind)) currency body.now }
    requires parts_hold { PartsHold curved (lent section rates addons sizes options) }
    ensures { TakesBody curved (kind_number kind) body.now (before section rates addons sizes options) result (after section rates addons sizes options) }
{
    match kind {
        Kind::Single => take_single(Body::new(body, currency), section, sizes),
        Kind::Coupons => take_coupons(Body::new(body, currency), section, sizes),
        Kind::Floating => take_floating(Body::new(body, currency), section, sizes),
        Kind::Deposit => take_deposit(Body::new(body, currency), section, sizes),
        Kind::Loan => take_loan(Body::new(body, currency), section, sizes),
        Kind::TermDeposit => take_term_deposit(Body::new(body, currency), section, sizes),
        Kind::OptionAddOn => take_option(Body::new(body, currency), options, addons),
        Kind::Curve => take_curve(curved, Body::new(body, currency), rates),
        Kind::FloatingSpread => take_floating_spread(Body::new(body, currency), section, sizes),
        Kind::ListedCurve => take_listed_curve(curved, Body::new(body, currency), rates),
    }
}
