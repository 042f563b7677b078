// `walk` as a C function.
ghost use Rattle.board_face.specs.Asked.{asked};
ghost use Rattle.board.specs.Faces.{BoardWalks};

use board_face::{answer_call, ask_of};
use plan::PlanTables;
use walk::walk;

// Times the chain given for the ask that the six numbers are.
#[unsafe(no_mangle)]
pub extern "C" fn oivarnum_walk(
    contacts: &[u64],
    contact_count: usize,
    ranges: &[u64],
    range_count: usize,
    source: u64,
    destination: u64,
    time: u64,
    size: u64,
    deadline: u64,
    excluded: u64,
    chain: &[u64],
    answer: &mut [u64],
) -> u64
    ensures { BoardWalks contacts.now contact_count ranges.now range_count (asked source destination time size deadline excluded) chain.now answer.old result answer.new }
{
    let ask = ask_of(source, destination, time, size, deadline, excluded);
    let tables = PlanTables {
        contacts,
        contact_count,
        ranges,
        range_count,
    };
    answer_call(answer, &mut || walk(tables, ask, chain))
}
