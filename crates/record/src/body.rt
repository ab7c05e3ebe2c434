// A record's body as its kind's decoder takes it: all its bytes, and the currency, which has been read.
ghost use Rattle.std.specs.Prelude.{◌≡◌};
ghost use Rattle.record.specs.Answers.{IsBody};

// Bodies of one kind have one length, `BYTES`.
#[derive(Clone, Copy)]
pub struct Body<'a, const BYTES: usize> {
    pub bytes: &'a [u8],
    pub currency: u32,
    pub ghost known: { IsBody BYTES currency bytes.now },
}

impl<'a, const BYTES: usize> Body<'a, BYTES> {
    pub fn new(bytes: &'a [u8], currency: u32) -> Self
        requires { IsBody BYTES currency bytes.now }
        ensures { (result.bytes.now ≡ bytes.now) × (result.currency ≡ currency) }
    {
        Body { bytes, currency }
    }
}
