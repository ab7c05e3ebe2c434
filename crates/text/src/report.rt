// The lines of a report: its numbers stand in one array, changes first, then sums, measure, worst, total tolerance and verdict.
ghost use Rattle.std.specs.Prelude.{◌*◌, ◌≤◌, [], ◌∷◌, ◌++◌, ◌≡◌, length, drop, if◌then◌else◌};
ghost use Rattle.paper.specs.Records.{currencies};
ghost use Rattle.paper.specs.Program.{changes_line, curved_lines, verdict_word, report_text};
ghost use Rattle.arrays.specs.Masks.{curved_by};
ghost use Rattle.text.specs.Pages.{HasRoom, Adds};
ghost use Rattle.text.specs.Longest.{longest_text};

use crate::page::Page;
use arrays::masks::has_curve;
use paper::{CHANGES, CURRENCIES, FIGURES, SHOCKED};

// Where the measure and the two numbers after it stand, after the changes and the sums, and the verdict.
const MEASURE: usize = CHANGES + SHOCKED;

const VERDICT: usize = MEASURE + 3;

impl<'a> Page<'a> {
    // C with currency and six changes; no line where the currency has no curve.
    fn changes(&mut self, report: &[i64; FIGURES], curved: u32, currency: u32)
        requires le_currency { (1 ≤ currency) × (currency ≤ currencies) }
        requires has_room { HasRoom 156 self.old }
        ensures { Adds (if curved_by curved currency then changes_line report.now currency else []) self.old self.new }
    {
        if has_curve(curved, currency) {
            let from = SHOCKED * (currency as usize - 1);
            let to = from + SHOCKED;
            self.line(b'C', &[u64::from(currency)], &report[from..to]);
        }
    }

    // Currency by currency.
    fn all_changes(&mut self, report: &[i64; FIGURES], curved: u32)
        requires { HasRoom (156 * currencies) self.old }
        ensures { Adds (curved_lines (curved_by curved) (changes_line report.now) currencies) self.old self.new }
    {
        for currency in 1..=CURRENCIES as u32 {
            self.changes(report, curved, currency);
        }
    }

    // V with the verdict.
    fn verdict(&mut self, verdict: i64)
        requires { HasRoom 9 self.old }
        ensures { Adds (86 ∷ 32 ∷ verdict_word verdict ++ (10 ∷ [])) self.old self.new }
    {
        match verdict {
            1 => self.text("V OVER\n"),
            2 => self.text("V WITHIN\n"),
            _ => self.text("V CLOSE\n"),
        }
    }

    // Each line starts where the one before it ends.
    pub fn report(&mut self, report: &[i64; FIGURES], curved: u32)
        requires { HasRoom longest_text self.old }
        ensures { Adds (report_text currencies (curved_by curved) report.now) self.old self.new × (length (report_text currencies (curved_by curved) report.now) ≤ longest_text) }
    {
        self.all_changes(report, curved);
        self.line(b'S', &[], &report[CHANGES..MEASURE]);
        self.line(b'M', &[], &report[MEASURE..VERDICT]);
        self.verdict(report[VERDICT]);
    }
}

// Answers how many bytes they are; those after them are left as they are.
pub fn write_report(report: &[i64; FIGURES], curved: u32, out: &mut [u8]) -> usize
    requires { longest_text ≤ length out.old }
    ensures value { (result ≡ length (report_text currencies (curved_by curved) report.now)) × (result ≤ longest_text) }
    ensures out_after { out.new ≡ report_text currencies (curved_by curved) report.now ++ drop result out.old }
{
    let mut page = Page::new(out);
    page.report(report, curved);
    page.written()
}
