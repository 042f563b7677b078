// A refusal alone: one line, and the end.
ghost use Rattle.route.specs.Receipts.{Told};

use crate::output::{PrintedRefusal, print_refusal};
use desk::{LONGEST, write_answer};
use units::{Refusal, place};

// The line of the refusal printed. There is room for it, so that it is not refused.
pub fn refuse(rt: &impl Print, why: Refusal) -> PrintedRefusal
    ensures { Told why result }
{
    // That its place is a number of 64 bits is known once it is read.
    let _ = place(why);
    let mut out = [0u8; LONGEST];
    let Ok(length) = write_answer(Err(why), &[], &mut out) else {
        unreachable!()
    };
    print_refusal(rt, why, &out[..length])
}
