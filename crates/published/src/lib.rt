// The published shock sizes (02, request 5): what an edition lists for a currency code. A line of a list is the parallel, the short and the long shock in
// basis points. A correction is one line here and the same one in specs/Published of the paper, whose lists these are proved to be. Nothing is built for a
// record: the compiler makes a search of each `match`.
#![tactic(auto, unfolding(paper::specs::Published::edition1, paper::specs::Published::edition2, paper::specs::Published::shocks_for, paper::specs::Published::line_of, laws::specs::Tests::first, crate::specs::Lines::listed_in))]

ghost use Rattle.std.specs.Prelude.{◌≡◌, ◌+◌, ◌≤◌, length};
ghost use Rattle.paper.specs.Refusals.{result_of};
ghost use Rattle.paper.specs.Published.{edition1, edition2};
ghost use Rattle.paper.specs.Fields.{listed_at};
ghost use Rattle.fields.specs.Answers.{as_it_is};
ghost use Rattle.published.specs.Lines.{listed_in};

use fields::bytes::{byte_at, three_at};
use fields::record_fault;
use paper::{Fault, Refusal, Shocks};

// The three letters, a byte each.
const ARS: u32 = 0x415253;

const AUD: u32 = 0x415544;

const BRL: u32 = 0x42524c;

const CAD: u32 = 0x434144;

const CHF: u32 = 0x434846;

const CNY: u32 = 0x434e59;

const EUR: u32 = 0x455552;

const GBP: u32 = 0x474250;

const HKD: u32 = 0x484b44;

const IDR: u32 = 0x494452;

const INR: u32 = 0x494e52;

const JPY: u32 = 0x4a5059;

const KRW: u32 = 0x4b5257;

const MXN: u32 = 0x4d584e;

const RUB: u32 = 0x525542;

const SAR: u32 = 0x534152;

const SEK: u32 = 0x53454b;

const SGD: u32 = 0x534744;

const TRY: u32 = 0x545259;

const USD: u32 = 0x555344;

const ZAR: u32 = 0x5a4152;

fn line(parallel: u32, short: u32, long: u32) -> Option<Shocks>
    ensures { result ≡ Some (record { parallel = parallel; short = short; long = long }) }
{
    Some(Shocks {
        parallel,
        short,
        long,
    })
}

// The 2016 standard: SRP31.90, table 2.
fn edition_1(code: u32) -> Option<Shocks>
    ensures { result ≡ listed_in edition1 code }
{
    match code {
        ARS => line(400, 500, 300),
        AUD => line(300, 450, 200),
        BRL => line(400, 500, 300),
        CAD => line(200, 300, 150),
        CHF => line(100, 150, 100),
        CNY => line(250, 300, 150),
        EUR => line(200, 250, 100),
        GBP => line(250, 300, 150),
        HKD => line(200, 250, 100),
        IDR => line(400, 500, 300),
        INR => line(400, 500, 300),
        JPY => line(100, 100, 100),
        KRW => line(300, 400, 200),
        MXN => line(400, 500, 300),
        RUB => line(400, 500, 300),
        SAR => line(200, 300, 150),
        SEK => line(200, 300, 150),
        SGD => line(150, 200, 100),
        TRY => line(400, 500, 300),
        USD => line(200, 300, 150),
        ZAR => line(400, 500, 300),
        _ => None,
    }
}

// The recalibration of July 2024 (d578), entered from recollection: to be held against the published table before anyone files by it.
fn edition_2(code: u32) -> Option<Shocks>
    ensures { result ≡ listed_in edition2 code }
{
    match code {
        ARS => line(400, 500, 300),
        AUD => line(350, 425, 300),
        BRL => line(400, 500, 300),
        CAD => line(225, 350, 200),
        CHF => line(175, 250, 200),
        CNY => line(225, 300, 150),
        EUR => line(225, 350, 200),
        GBP => line(275, 425, 250),
        HKD => line(225, 375, 200),
        IDR => line(400, 500, 300),
        INR => line(325, 475, 225),
        JPY => line(100, 100, 100),
        KRW => line(225, 350, 225),
        MXN => line(400, 500, 300),
        RUB => line(400, 500, 300),
        SAR => line(275, 375, 250),
        SEK => line(275, 425, 200),
        SGD => line(175, 250, 225),
        TRY => line(400, 500, 300),
        USD => line(200, 300, 225),
        ZAR => line(325, 500, 300),
        _ => None,
    }
}

// An edition (1 byte) and a code (3), and the shocks that are listed. Both refusals are told of the record as a whole.
pub fn listed_at(body: &[u8], at: usize) -> Result<Shocks, Fault>
    requires { at + 4 ≤ length body.now }
    ensures { result ≡ result_of as_it_is (listed_at body.now at) }
{
    let code = three_at(body, at + 1);
    let listed = match byte_at(body, at) {
        1 => edition_1(code),
        2 => edition_2(code),
        _ => return Err(record_fault(Refusal::UnknownEdition)),
    };
    listed.ok_or(record_fault(Refusal::CodeNotListed))
}
