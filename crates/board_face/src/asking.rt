// An ask from plain numbers.
ghost use Rattle.std.specs.Prelude.{◌≡◌};
ghost use Rattle.board_face.specs.Asked.{asked};

use units::{Ask, Millis, NodeNo};

// The ask that the six numbers are, in the order of an ask line. Six parameters and no struct, since the C
// interface passes them so.
pub fn ask_of(
    source: u64,
    destination: u64,
    time: u64,
    size: u64,
    deadline: u64,
    excluded: u64,
) -> Ask
    ensures { result ≡ asked source destination time size deadline excluded }
{
    Ask {
        source: NodeNo(source),
        destination: NodeNo(destination),
        time: Millis(time),
        size,
        deadline: Millis(deadline),
        excluded,
    }
}
