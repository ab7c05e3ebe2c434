// Numbers in decimal.
ghost use Rattle.std.specs.Prelude.{◌+◌, ◌≤◌, ◌≡◌};
ghost use Rattle.paper.specs.Program.{decimal, with_sign, signed_decimal};
ghost use Rattle.paper.specs.Detail.{pointed};
ghost use Rattle.text.specs.Pages.{HasRoom, Adds};

use crate::page::Page;
use itoa::Buffer;

fn digit(d: u64) -> u8
    requires { d ≤ 9 }
    ensures { result ≡ 48 + d }
{
    48 + d as u8
}

impl<'a> Page<'a> {
    // Twenty digits hold every u64.
    pub fn natural(&mut self, n: u64)
        requires { HasRoom 20 self.old }
        ensures { Adds (decimal n) self.old self.new }
    {
        self.text(Buffer::new().format(n));
    }

    // With a minus sign below zero.
    pub fn integer(&mut self, z: i64)
        requires { HasRoom 21 self.old }
        ensures { Adds (signed_decimal z) self.old self.new }
    {
        self.text(Buffer::new().format(z));
    }

    // Hundredths, with two digits after the point.
    fn pointed(&mut self, n: u64)
        requires { HasRoom 23 self.old }
        ensures { Adds (pointed n) self.old self.new }
    {
        self.natural(n / 100);
        self.byte(b'.');
        self.byte(digit(n / 10 % 10));
        self.byte(digit(n % 10));
    }

    pub fn signed_pointed(&mut self, z: i64)
        requires { HasRoom 24 self.old }
        ensures { Adds (with_sign pointed z) self.old self.new }
    {
        if z < 0 {
            self.byte(b'-');
        }
        self.pointed(z.unsigned_abs());
    }
}
