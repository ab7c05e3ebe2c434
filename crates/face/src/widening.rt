// The face of `widen`: a stored report becomes one over all currencies (02, request 7).
ghost use Rattle.stored.specs.Stored.{AsFresh};
ghost use Rattle.face.specs.Face.{FacesWidening};

use crate::place::tell;
use stored::widen;

// 0 where the report was written, else the refusal's number; the place is 0 in either case.
#[unsafe(no_mangle)]
pub extern "C" fn vorlegan_widen(stored: &[i64], report: &mut [i64], place: &mut [u64]) -> u32
    ensures faces_widening { FacesWidening stored.now report place result }
    ensures as_fresh { AsFresh stored.now report.old report.new }
{
    tell(widen(stored, report), place)
}
