// What the detail program prints for its input: the report's lines, then what stands behind them. Everything of it but the reading and the writing.
#![tactic(auto)]

ghost use Rattle.std.specs.Prelude.{List, ◌*◌, ◌+◌, ◌++◌, ◌≡◌, ◌≤◌, length, drop};
ghost use Rattle.paper.specs.Refusals.{accepted};
ghost use Rattle.paper.specs.Records.{Record, currencies, kind_count};
ghost use Rattle.paper.specs.Ledger.{cells};
ghost use Rattle.paper.specs.TurnedDown.{longest_book};
ghost use Rattle.paper.specs.Detail.{detailed};
ghost use Rattle.arrays.specs.Masks.{curved_by};
ghost use Rattle.arrays.specs.Rooms.{totals_by};
ghost use Rattle.text.specs.Pages.{HasRoom, Adds};
ghost use Rattle.valuation.specs.Bounds.{Bounds};
ghost use Rattle.load.specs.Load.{of_records};
ghost use Rattle.detail.specs.Behind.{longest_behind};
ghost use Rattle.detailing.specs.Detailed.{behind_kept, longest_detail};

use detail::LONGEST_BEHIND;
use detail::behind::Behind;
use detail::standing::Standing;
use lending::Working;
use load::load;
use paper::{CELLS, CHANGES, FIGURES, SHOCKED};
use printing::{CAPITAL, answer, capital_in, print_refusal};
use scales::Thousands;
use tally::{COUNTS, tally};
use text::LONGEST_TEXT;
use text::page::Page;

pub const LONGEST_DETAIL: usize = LONGEST_TEXT + LONGEST_BEHIND;

// Where the measure stands in the report.
const MEASURE: usize = CHANGES + SHOCKED;

fn behind_of<'a>(working: &'a Working, counts: &'a [i64], curved: u32) -> Behind<'a>
    requires counts_len { (length counts.now ≡ kind_count * currencies) × (length working.now.ledger.now ≡ cells currencies) }
    requires bounds { Bounds (totals_by working.now.ledger.now working.now.addons working.now.rates) (curved_by curved) }
    ensures arrays { (result.ledger.now ≡ working.now.ledger.now) × (result.rates.now ≡ working.now.rates) × (result.add_ons.now ≡ working.now.addons) }
    ensures counts { (result.counts.now ≡ counts.now) × (result.curved ≡ curved) }
{
    Behind {
        ledger: working.ledger,
        rates: &working.rates,
        add_ons: &working.addons,
        counts,
        curved,
    }
}

// The book is walked once more, for a report and its ledger keep neither the rates nor the add-ons: nothing is lent for them where nobody asks.
fn put_behind(book: &[u8], standing: &Standing, page: &mut Page<'_>)
    requires book_len_bound { length book.now ≤ longest_book }
    requires room { HasRoom longest_behind page.old }
    ensures upper_bound { page.new.written ≤ page.old.written + longest_behind }
    ensures adds { (kept : List Record) → of_records book.now ≡ accepted kept → Adds (behind_kept book.now kept standing.now.measure.0 standing.now.tier1.0) page.old page.new × (length (behind_kept book.now kept standing.now.measure.0 standing.now.tier1.0) ≤ longest_behind) }
{
    let mut ledger = [0i64; CELLS];
    let mut counts = [0i64; COUNTS];
    let mut working = Working::new(&mut ledger);
    match load(book, &mut working) {
        Err(_) => {}
        Ok(curved) => {
            let count = tally(book, &mut counts);
            behind_of(&working, &counts, curved).put(page, count, standing);
        }
    }
}

// Answers how many bytes it prints; those after them are left as they are.
pub fn print_detail(input: &[u8], out: &mut [u8]) -> usize
    requires { longest_detail ≤ length out.old }
    ensures value { (result ≡ length (detailed currencies input.now)) × (result ≤ longest_detail) }
    ensures out_after { out.new ≡ detailed currencies input.now ++ drop result out.old }
{
    let mut report = [0i64; FIGURES];
    let mut ledger = [0i64; CELLS];
    match answer(input, &mut report, &mut ledger) {
        Err(fault) => print_refusal(fault, out),
        Ok(curves) => {
            let standing = Standing {
                measure: Thousands(report[MEASURE] as u64),
                tier1: capital_in(input),
            };
            let mut page = Page::new(out);
            page.report(&report, curves);
            put_behind(&input[CAPITAL..], &standing, &mut page);
            page.written()
        }
    }
}
