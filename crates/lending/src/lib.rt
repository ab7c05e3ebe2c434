// The working arrays of an assessment, and a record taken into its currency's own parts of them.
#![tactic(auto)]

ghost use Rattle.std.specs.Prelude.{[], ◌≡◌, ◌≤◌, length};
ghost use Rattle.paper.specs.Records.{currencies, body_length};
ghost use Rattle.paper.specs.Ledger.{cells};
ghost use Rattle.arrays.specs.Arrays.{Holding, arrays_of};
ghost use Rattle.record.specs.Answers.{IsBody};
ghost use Rattle.kinds.specs.Kind.{kind_number};
ghost use Rattle.lending.specs.Records.{TakesRecord};
ghost use Rattle.lending.specs.Working.{arrays_in};

use arrays::masks::has_curve;
use kinds::{Kind, take_body};
use paper::{CELLS, CHANGES, CURRENCIES, Fault, SCENARIOS, SECTION, SHOCKED};

// What the records kept come to. The ledger is the caller's room; the other four are made for an assessment. Ledger and rates have 133 places a currency, sizes 7, add-ons and the
// sizes of options 6.
#[derive(Drop)]
pub struct Working<'a> {
    pub ledger: &'a mut [i64],
    pub rates: [i32; CELLS],
    pub addons: [i64; CHANGES],
    pub sizes: [u64; SCENARIOS * CURRENCIES],
    pub options: [u64; CHANGES],
}

impl<'a> Working<'a> {
    // Nothing is kept yet.
    pub fn new(ledger: &'a mut [i64]) -> Working<'a>
        requires { length ledger.now ≡ cells currencies }
        ensures same_ledger { result.ledger.ghost_name ≡ ledger.entry.ghost_name }
        ensures nothing_kept { arrays_in result ≡ arrays_of [] }
    {
        ledger.fill(0);
        Working {
            ledger,
            rates: [0; CELLS],
            addons: [0; CHANGES],
            sizes: [0; SCENARIOS * CURRENCIES],
            options: [0; CHANGES],
        }
    }

    // The currency's parts are lent in one call to the function of the record's kind.
    pub fn take(&mut self, kind: Kind, currency: u32, curved: u32, body: &[u8]) -> Result<(), Fault>
        requires body { IsBody (body_length (kind_number kind)) currency body.now × (1 ≤ currency) × (currency ≤ currencies) }
        requires holding { Holding (record { used = 0; curved = curved }) (arrays_in self.old) }
        ensures same_ledger { self.new.ledger.ghost_name ≡ self.old.ledger.ghost_name }
        ensures taken { TakesRecord curved (kind_number kind) body.now (arrays_in self.old) result (arrays_in self.new) }
    {
        let part = currency as usize - 1;
        let cell = SECTION * part;
        let cells = cell + SECTION;
        let six = SHOCKED * part;
        let sixes = six + SHOCKED;
        let size = SCENARIOS * part;
        let sums = size + SCENARIOS;
        take_body(
            kind,
            currency,
            has_curve(curved, currency),
            body,
            &mut self.ledger[cell..cells],
            &mut self.rates[cell..cells],
            &mut self.addons[six..sixes],
            &mut self.sizes[size..sums],
            &mut self.options[six..sixes],
        )
    }
}
