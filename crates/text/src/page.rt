// A page: the room that a caller lends, and how far it is written.
ghost use Rattle.std.specs.Prelude.{◌≡◌, [], ◌∷◌, length};
ghost use Rattle.text.specs.Pages.{HasRoom, Adds};

#[derive(Drop)]
pub struct Page<'a> {
    room: &'a mut [u8],
    written: usize,
}

impl<'a> Page<'a> {
    pub fn new(room: &'a mut [u8]) -> Page<'a>
        ensures same_room { result.room.ghost_name ≡ room.entry.ghost_name }
        ensures nothing_written { result.written ≡ 0 }
        ensures as_it_was { result.room.now ≡ room.old }
    {
        Page::begun(room, 0)
    }

    // Its first bytes, so many, are written already: what is written next stands after them.
    pub fn begun(room: &'a mut [u8], written: usize) -> Page<'a>
        ensures same_room { result.room.ghost_name ≡ room.entry.ghost_name }
        ensures so_far { result.written ≡ written }
        ensures as_it_was { result.room.now ≡ room.old }
    {
        Page { room, written }
    }

    // How many bytes are written.
    pub fn written(&self) -> usize
        ensures { result ≡ self.now.written }
    {
        self.written
    }

    pub fn byte(&mut self, byte: u8)
        requires { HasRoom 1 self.old }
        ensures { Adds (byte ∷ []) self.old self.new }
    {
        self.room[self.written] = byte;
        self.written += 1;
    }

    pub fn bytes(&mut self, text: &[u8])
        requires { HasRoom (length text.now) self.old }
        ensures { Adds text.now self.old self.new }
    {
        let end = self.written + text.len();
        self.room[self.written..end].copy_from_slice(text);
        self.written = end;
    }

    pub fn text(&mut self, text: &str)
        requires { HasRoom (length text.now) self.old }
        ensures { Adds text.now self.old self.new }
    {
        self.bytes(text.as_bytes());
    }
}
