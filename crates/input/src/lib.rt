// Standard input, read to its end into a room that the caller lends, and a program that prints one answer to it.
#![tactic(auto)]

ghost use Rattle.std.specs.Prelude.{◌≡◌, ℕ, ◌<◌, ◌≤◌, length, take, IfOk};
ghost use Rattle.std.specs.Io.KnownBytes.{Consumes, IsAtEnd};

use std::io;
use std::io::Read;

// Until the input ends or the room is full: of a reader whose bytes are known, the room has the first ones in their order, and
// some are left only where it is full. A read may bring fewer bytes than there is room for: only one that brings none is the end.
#[tactic(auto, using(crate::proofs::Reading::filled_more))]
pub fn read_input<R: Read>(reader: &mut R, room: &mut [u8]) -> io::Result<usize>
    ensures within { IfOk result (λ n. n ≤ length room.old) }
    ensures bytes { IfOk result (λ n. Consumes (R.remaining reader.old) (R.remaining reader.new) (take n room.new)) }
    ensures end { IfOk result (λ n. n < length room.old → IsAtEnd (R.remaining reader.new)) }
{
    let mut filled = 0;
    while filled < room.len() {
        match reader.read(&mut room[filled..])? {
            0 => return Ok(filled),
            more => filled += more,
        }
    }
    Ok(filled)
}

// Prints the answer, which says how many bytes of `out` it wrote. Where the output cannot be written there is nobody to tell: the program ends.
pub fn run<const LENGTH: usize, F: Fn(&[u8], &mut [u8]) -> usize>(
    rt: &HostRuntime,
    name: &str,
    answer: F,
    out: &mut [u8; LENGTH],
)
    requires callable { (input : _) (room : _) → length room.now ≡ LENGTH → F.pre answer input room }
    requires fits { (input : _) (room : _) (n : ℕ) (after : _) → length room.now ≡ LENGTH → F.post answer input room n after → n ≤ LENGTH }
{
    // One byte more than the longest input that is read as a book, so that a longer one is seen to be longer.
    let mut input = [0u8; 65537];
    let Ok(length) = read_input(&mut rt.stdin(), &mut input) else {
        let _ = eprintln!(rt; "{name}: standard input cannot be read; nothing is reported");
        return;
    };
    let count = answer(&input[..length], out);
    let _ = rt.write_all(&out[..count]);
}
