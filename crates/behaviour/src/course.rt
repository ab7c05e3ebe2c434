// Kind 5, one bucket: what is paid, prepaid and due as interest, and the balance after it.
ghost use Rattle.std.specs.Prelude.{◌+◌, ◌-◌, ◌≤◌, false, ◌&&◌, ◌≡◌};
ghost use Rattle.laws.specs.Tests.{◌is◌, ◌below◌};
ghost use Rattle.paper.specs.Scales.{billion};
ghost use Rattle.paper.specs.Behaviour.{whole_rate, paid, prepaid, interest};
ghost use Rattle.posting.specs.Parts.{trillion};

use scales::Thousands;

// What the schedule has in a bucket: its width in months, its principal and its interest, and the balance before them.
#[derive(Clone, Copy)]
pub struct Scheduled {
    pub width: u64,
    pub principal: Thousands,
    pub charge: Thousands,
    pub remaining: Thousands,
    pub ghost narrow: { width ≤ 120 },
    pub ghost charge_small: { charge.0 ≤ billion },
    pub ghost remaining_small: { remaining.0 ≤ billion },
    pub ghost none_alone: { (0 below charge.0 && remaining.0 is 0) ≡ false },
}

impl Scheduled {
    fn paid(self, outstanding: Thousands) -> Thousands
        ensures { (result.0 ≡ paid self.principal.0 outstanding.0) × (result.0 ≤ outstanding.0) }
    {
        Thousands(self.principal.0.min(outstanding.0))
    }

    // The rate is a year's: its part of the balance before payment for so many months, at most what payment leaves.
    fn prepaid(self, rate: u64, outstanding: Thousands) -> Thousands
        requires { (rate ≤ whole_rate) × (outstanding.0 ≤ self.remaining.0) }
        ensures { (result.0 ≡ prepaid rate self.width self.principal.0 outstanding.0) × (paid self.principal.0 outstanding.0 + result.0 ≤ outstanding.0) }
    {
        let part = outstanding.0 * rate * self.width / 1_200_000;
        Thousands(part.min(outstanding.0 - self.paid(outstanding).0))
    }

    // Scheduled interest in the proportion of the balance to the scheduled one.
    fn interest(self, outstanding: Thousands) -> Thousands
        requires { outstanding.0 ≤ self.remaining.0 }
        ensures { (result.0 ≡ interest self.charge.0 outstanding.0 self.remaining.0) × (result.0 ≤ self.charge.0) }
    {
        if self.charge.0 == 0 {
            return Thousands(0);
        }
        Thousands(self.charge.0 * outstanding.0 / self.remaining.0)
    }
}

// A loan at one of the rates, so far: what is outstanding, and the sum of its flows.
#[derive(Clone, Copy)]
pub struct Course {
    pub rate: u64,
    pub balance: Thousands,
    pub sum: Thousands,
}

impl Course {
    // One bucket more: its flow.
    pub fn pass(&mut self, bucket: Scheduled) -> Thousands
        requires { (self.old.rate ≤ whole_rate) × (self.old.balance.0 ≤ bucket.remaining.0) × (self.old.sum.0 ≤ trillion) }
        ensures flow { result.0 ≡ paid bucket.principal.0 self.old.balance.0 + prepaid self.old.rate bucket.width bucket.principal.0 self.old.balance.0 + interest bucket.charge.0 self.old.balance.0 bucket.remaining.0 }
        ensures balance { self.new.balance.0 ≡ self.old.balance.0 - paid bucket.principal.0 self.old.balance.0 - prepaid self.old.rate bucket.width bucket.principal.0 self.old.balance.0 }
        ensures sum { self.new.sum.0 ≡ self.old.sum.0 + result.0 }
        ensures rate { self.new.rate ≡ self.old.rate }
    {
        let scheduled = bucket.paid(self.balance);
        let early = bucket.prepaid(self.rate, self.balance);
        let charged = bucket.interest(self.balance);
        let flow = Thousands(scheduled.0 + early.0 + charged.0);
        self.balance.0 -= scheduled.0 + early.0;
        self.sum.0 += flow.0;
        flow
    }
}
