// `walk_booked` as a C function.
ghost use Rattle.board_face.specs.Asked.{asked};
ghost use Rattle.board.specs.Booked.{BoardWalksBooked};

use board_face::{answer_call, ask_of};
use book::BookTables;
use calls::walk_booked;
use plan::PlanTables;

// Times the chain given for the ask that the six numbers are, of that class, over the plan with its book.
#[unsafe(no_mangle)]
pub extern "C" fn oivarnum_walk_booked(
    contacts: &[u64],
    contact_count: usize,
    ranges: &[u64],
    range_count: usize,
    book: &[u64],
    booked: &[u16],
    source: u64,
    destination: u64,
    time: u64,
    size: u64,
    deadline: u64,
    excluded: u64,
    class: u64,
    chain: &[u64],
    answer: &mut [u64],
) -> u64
    ensures { BoardWalksBooked contacts.now contact_count ranges.now range_count book.now booked.now (asked source destination time size deadline excluded) class chain.now answer.old result answer.new }
{
    let ask = ask_of(source, destination, time, size, deadline, excluded);
    let tables = PlanTables {
        contacts,
        contact_count,
        ranges,
        range_count,
    };
    let places = BookTables {
        places: book,
        chains: booked,
    };
    answer_call(
        answer,
        &mut || walk_booked(tables, places, ask, class, chain),
    )
}
