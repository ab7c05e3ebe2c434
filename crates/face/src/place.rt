// What a caller in another language is told: a number that comes back, and a refusal's place.
ghost use Rattle.std.specs.Prelude.{◌≡◌};
ghost use Rattle.face.specs.Face.{with_place, Tells, told};

use paper::Fault;

// A caller that lends no cell for the place is not told it.
fn put_place(place: &mut [u64], told: u64)
    ensures { place.new ≡ with_place told place.old }
{
    if place.len() > 0 {
        place[0] = told;
    }
}

pub fn tell<T: Copy>(answer: Result<T, Fault>, place: &mut [u64]) -> u32
    ensures { Tells (told answer) place.old result place.new }
{
    match answer {
        Ok(_) => {
            put_place(place, 0);
            0
        }
        Err(fault) => {
            put_place(place, fault.place as u64);
            u32::from(fault.cause)
        }
    }
}
