// The lines of the book as a whole: N, T, L, H, P.
ghost use Rattle.std.specs.Prelude.{◌≤◌, ◌≡◌};
ghost use Rattle.paper.specs.Detail.{limit, headroom, share, closing_text};
ghost use Rattle.text.specs.Pages.{HasRoom, Adds};
ghost use Rattle.verdict.specs.Figures.{most_of_a_sum};
ghost use Rattle.detail.specs.Behind.{longest_closing};

use scales::Thousands;
use text::page::Page;

// Where the book stands: its measure, against Tier 1 capital.
#[derive(Drop)]
pub struct Standing {
    pub measure: Thousands,
    pub tier1: Thousands,
    pub ghost in_range: { (measure.0 ≤ most_of_a_sum) × (1 ≤ tier1.0) × (tier1.0 ≤ 1_000_000_000_000) },
}

impl Standing {
    // 15 per cent of Tier 1 capital, in hundredths.
    fn limit(&self) -> i64
        ensures { result ≡ limit self.now.tier1.0 }
    {
        (15 * self.tier1.0) as i64
    }

    // The limit less the measure, in hundredths.
    fn headroom(&self) -> i64
        ensures { result ≡ headroom self.now.measure.0 self.now.tier1.0 }
    {
        self.limit() - (100 * self.measure.0) as i64
    }

    // The measure in per cent of Tier 1 capital, in hundredths, rounded up.
    fn share(&self) -> u64
        ensures { result ≡ share self.now.measure.0 self.now.tier1.0 }
    {
        (10_000 * self.measure.0).div_ceil(self.tier1.0)
    }
}

pub(crate) fn put_closing(page: &mut Page<'_>, count: u64, standing: &Standing)
    requires { HasRoom longest_closing page.old }
    ensures { Adds (closing_text count standing.now.measure.0 standing.now.tier1.0) page.old page.new }
{
    page.line(b'N', &[], &[count]);
    page.line(b'T', &[], &[standing.tier1.0]);
    page.pointed_line(b'L', standing.limit());
    page.pointed_line(b'H', standing.headroom());
    page.pointed_line(b'P', standing.share() as i64);
}
