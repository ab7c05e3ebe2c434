// Numbers are big-endian.
ghost use Rattle.std.specs.Prelude.{◌≡◌, ◌+◌, ◌<◌, ◌≤◌, length};
ghost use Rattle.paper.specs.Fields.{byte, two, three, four, signed};

use scales::Thousands;

pub fn byte_at(body: &[u8], at: usize) -> u32
    requires { at < length body.now }
    ensures { result ≡ byte body.now at }
{
    u32::from(body[at])
}

pub fn two_at(body: &[u8], at: usize) -> u32
    requires { at + 2 ≤ length body.now }
    ensures { (result ≡ two body.now at) × (result < 65536) }
{
    u32::from(u16::from_be_bytes([body[at], body[at + 1]]))
}

pub fn three_at(body: &[u8], at: usize) -> u32
    requires { at + 3 ≤ length body.now }
    ensures { result ≡ three body.now at }
{
    u32::from_be_bytes([0, body[at], body[at + 1], body[at + 2]])
}

pub fn four_at(body: &[u8], at: usize) -> u32
    requires { at + 4 ≤ length body.now }
    ensures { result ≡ four body.now at }
{
    u32::from_be_bytes([body[at], body[at + 1], body[at + 2], body[at + 3]])
}

// Four bytes at the width of money. Several passes look at an amount: as long as all of them make the same number of its bytes, the compiler loads it once.
pub fn money_at(body: &[u8], at: usize) -> Thousands
    requires { at + 4 ≤ length body.now }
    ensures { (result.0 ≡ four body.now at) × (result.0 < 4294967296) }
{
    Thousands(u64::from(four_at(body, at)))
}

// Two's complement.
pub fn signed_at(body: &[u8], at: usize) -> i64
    requires { at + 4 ≤ length body.now }
    ensures { result ≡ signed (four body.now at) }
{
    i64::from(four_at(body, at).cast_signed())
}
