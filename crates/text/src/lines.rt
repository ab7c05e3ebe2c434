// A line: its letter, its items after single spaces, a newline.
ghost use Rattle.std.specs.Prelude.{ℤ, pos, ◌+◌, ◌*◌, [], ◌∷◌, ◌++◌, length, map};
ghost use Rattle.paper.specs.Program.{items, line};
ghost use Rattle.paper.specs.Detail.{pointed_line};
ghost use Rattle.text.specs.Pages.{HasRoom, Adds};

use crate::page::Page;

// A number that stands in a line: a space, a sign and twenty digits at most.
pub trait Item: Copy {
    ghost number: { Self → ℤ };

    fn put(self, page: &mut Page<'_>)
        requires { HasRoom 22 page.old }
        ensures { Adds (items (number self ∷ [])) page.old page.new };
}

impl Item for u64 {
    ghost number = { pos };

    fn put(self, page: &mut Page<'_>) {
        page.byte(b' ');
        page.natural(self);
    }
}

impl Item for i64 {
    ghost number = { λ z. z };

    fn put(self, page: &mut Page<'_>) {
        page.byte(b' ');
        page.integer(self);
    }
}

impl Item for i32 {
    ghost number = { λ z. z };

    fn put(self, page: &mut Page<'_>) {
        i64::from(self).put(page);
    }
}

impl<'a> Page<'a> {
    pub fn items<I: Item>(&mut self, numbers: &[I])
        requires { HasRoom (22 * length numbers.now) self.old }
        ensures { Adds (items (map I.number numbers.now)) self.old self.new }
    {
        for number in numbers {
            number.put(self);
        }
    }

    // The heads have no sign and stand before the other items.
    pub fn line<I: Item>(&mut self, letter: u8, heads: &[u64], numbers: &[I])
        requires { HasRoom (22 * length heads.now + 22 * length numbers.now + 2) self.old }
        ensures { Adds (line letter (map pos heads.now ++ map I.number numbers.now)) self.old self.new }
    {
        self.byte(letter);
        self.items(heads);
        self.items(numbers);
        self.byte(b'\n');
    }

    // One item in hundredths.
    pub fn pointed_line(&mut self, letter: u8, z: i64)
        requires { HasRoom 27 self.old }
        ensures { Adds (pointed_line letter z) self.old self.new }
    {
        self.byte(letter);
        self.byte(b' ');
        self.signed_pointed(z);
        self.byte(b'\n');
    }
}
