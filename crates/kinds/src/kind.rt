// The kinds by name: the number of each, the length of its body, and which are curves.
ghost use Rattle.std.specs.Prelude.{◌≡◌, ◌≤◌};
ghost use Rattle.paper.specs.Records.{body_length, curve_kind};
ghost use Rattle.kinds.specs.Kind.{kind_number, Names};

use paper::Refusal;

// The kinds in the order of their numbers, which `kind_number` in specs/Kind.antt gives.
#[derive(Clone, Copy)]
pub enum Kind {
    Single = 1,
    Coupons,
    Floating,
    Deposit,
    Loan,
    TermDeposit,
    OptionAddOn,
    Curve,
    FloatingSpread,
    ListedCurve,
}

impl TryFrom<u8> for Kind {
    type Error = Refusal;

    ghost try_from_gives = { Names };

    fn try_from(byte: u8) -> Result<Kind, Refusal> {
        match byte {
            1 => Ok(Kind::Single),
            2 => Ok(Kind::Coupons),
            3 => Ok(Kind::Floating),
            4 => Ok(Kind::Deposit),
            5 => Ok(Kind::Loan),
            6 => Ok(Kind::TermDeposit),
            7 => Ok(Kind::OptionAddOn),
            8 => Ok(Kind::Curve),
            9 => Ok(Kind::FloatingSpread),
            10 => Ok(Kind::ListedCurve),
            _ => Err(Refusal::UnknownKind),
        }
    }
}

impl Kind {
    // A table would be copied for every record; the compiler makes one of the `match`.
    #[tactic(auto, unfolding(paper::specs::Records::body_length, paper::specs::Records::kinds))]
    pub fn body_length(self) -> usize
        ensures { (result ≡ body_length (kind_number self)) × (result ≤ 155) }
    {
        match self {
            Kind::Single => 9,
            Kind::Coupons => 13,
            Kind::Floating => 13,
            Kind::Deposit => 82,
            Kind::Loan => 155,
            Kind::TermDeposit => 79,
            Kind::OptionAddOn => 26,
            Kind::Curve => 83,
            Kind::FloatingSpread => 20,
            Kind::ListedCurve => 81,
        }
    }

    #[tactic(auto, unfolding(paper::specs::Records::curve_kind))]
    pub fn is_curve(self) -> bool
        ensures { result ≡ curve_kind (kind_number self) }
    {
        matches!(self, Kind::Curve | Kind::ListedCurve)
    }
}
