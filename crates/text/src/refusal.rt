// The line of a book that is turned down.
ghost use Rattle.std.specs.Prelude.{◌≤◌, ◌++◌, ◌≡◌, length, drop};
ghost use Rattle.paper.specs.Program.{refusal_text};

use crate::page::Page;

// R with number and place. Answers how many bytes it is; those after it are left as they are.
pub fn write_refusal(number: u64, place: u64, out: &mut [u8]) -> usize
    requires { 64 ≤ length out.old }
    ensures value { (result ≡ length (refusal_text number place)) × (result ≤ 64) }
    ensures out_after { out.new ≡ refusal_text number place ++ drop result out.old }
{
    let mut page = Page::new(out);
    page.line(b'R', &[], &[number, place]);
    page.written()
}
