// The discount factor, in billionths (01, "Discount factor").
#![tactic(auto)]

ghost use Rattle.std.specs.Prelude.{◌≡◌, ◌*◌, ◌-◌, ◌%◌, ◌^◌, ◌<◌, ◌≤◌};
ghost use Rattle.laws.specs.Nearest.{nearest};
ghost use Rattle.paper.specs.Scales.{billion};
ghost use Rattle.paper.specs.Factor.{after_digits, low_start, factor, InRange};
ghost use Rattle.factor.specs.Table.{rows};

use ladder::Exponent;

// A row for each weight from 1 down to 10^-5; in it an entry for each digit. What the five smaller weights have for an entry follows a rule.
static TABLE: [[u64; 10]; 6] = [
    [
        1000000000, 367879441, 135335283, 49787068, 18315639, 6737947, 2478752, 911882, 335463,
        123410,
    ],
    [
        1000000000, 904837418, 818730753, 740818221, 670320046, 606530660, 548811636, 496585304,
        449328964, 406569660,
    ],
    [
        1000000000, 990049834, 980198673, 970445534, 960789439, 951229425, 941764534, 932393820,
        923116346, 913931185,
    ],
    [
        1000000000, 999000500, 998001999, 997004496, 996007989, 995012479, 994017964, 993024443,
        992031915, 991040379,
    ],
    [
        1000000000, 999900005, 999800020, 999700045, 999600080, 999500125, 999400180, 999300245,
        999200320, 999100405,
    ],
    [
        1000000000, 999990000, 999980000, 999970000, 999960001, 999950001, 999940002, 999930002,
        999920003, 999910004,
    ],
];

pub fn table() -> &'static [[u64; 10]; 6]
    ensures { result.now ≡ rows }
{
    &TABLE
}

// Times a table entry, over a billion, halves up.
fn scaled(product: u64, entry: u64) -> u64
    requires { (product ≤ low_start) × (entry ≤ billion) }
    ensures { result ≡ nearest (product * entry) billion }
{
    (product * entry + 500_000_000) / 1_000_000_000
}

// Times an entry that lacks of a billion a tenth of digit times weight, over a billion, halves up. So what comes off goes down at a half.
fn lessened(product: u64, digit: u64, weight: u64) -> u64
    requires { (product ≤ low_start) × (digit < 10) × (weight ≤ 10 ^ 4) }
    ensures { result ≡ nearest (product * (10 ^ 10 - digit * weight)) (10 ^ 10) }
{
    product - (product * digit * weight + 4_999_999_999) / 10_000_000_000
}

// A product, and the digits of the exponent that are still to come.
#[derive(Clone, Copy)]
struct Begun {
    product: u64,
    rest: u64,
}

// The first six digits of the exponent, highest first: their entries are in the table.
fn after_first_digits(start: u64, exponent: u64) -> Begun
    requires { (start ≤ low_start) × (exponent < 10 ^ 11) }
    ensures { (result.product ≡ after_digits start exponent 6) × (result.rest ≡ exponent % 10 ^ 5) }
{
    let mut product = start;
    let mut rest = exponent;
    let mut weight = 10_000_000_000;
    for row in table() {
        let digit = (rest / weight) as usize;
        product = scaled(product, row[digit]);
        rest %= weight;
        weight /= 10;
    }
    Begun { product, rest }
}

// The last five, of an exponent that has no others. Their entries are worked out: they lack of a billion a tenth of digit times weight, and that of the
// smallest weight, whose tenth is no whole number, the whole part of (d + 4) / 10.
fn after_last_digits(start: u64, exponent: u64) -> u64
    requires { (start ≤ low_start) × (exponent < 10 ^ 5) }
    ensures { result ≡ after_digits start exponent 11 }
{
    let mut product = start;
    let mut rest = exponent;
    for weight in [10_000, 1_000, 100, 10] {
        product = lessened(product, rest / weight, weight);
        rest %= weight;
    }
    lessened(product, (rest + 4) / 10, 10)
}

// The eleven digits of the exponent, highest first.
fn after_digits(start: u64, exponent: u64) -> u64
    requires { (start ≤ low_start) × (exponent < 10 ^ 11) }
    ensures { result ≡ after_digits start exponent 11 }
{
    let begun = after_first_digits(start, exponent);
    after_last_digits(begun.product, begun.rest)
}

const BILLION: u64 = 1_000_000_000;

// The start below zero: a billion times E(1.25).
const LOW_START: u64 = 3_490_342_957;

// Below zero Y counts up from -1.25.
const LOW_END: i64 = 12_500_000_000;

pub fn factor(x: Exponent) -> u64
    requires { InRange x.0 }
    ensures { (result ≡ factor x.0) × (result ≤ low_start) }
{
    let units = x.units();
    if units < 0 {
        after_digits(LOW_START, (LOW_END + units) as u64)
    } else {
        after_digits(BILLION, units as u64)
    }
}
