// `book_route` as a C function.
ghost use Rattle.board_face.specs.Asked.{asked};
ghost use Rattle.board.specs.Booked.{BoardBooks};

use board_face::{answer_call, ask_of};
use calls_book::book_route;
use plan::PlanTables;

// Finds the best chain for the ask that the six numbers are, of that class, over the plan with its book, and
// books it in the lowest free place.
#[unsafe(no_mangle)]
pub extern "C" fn oivarnum_book_route(
    contacts: &[u64],
    contact_count: usize,
    ranges: &[u64],
    range_count: usize,
    book: &mut [u64],
    booked: &mut [u16],
    source: u64,
    destination: u64,
    time: u64,
    size: u64,
    deadline: u64,
    excluded: u64,
    class: u64,
    chain: &mut [u64],
    answer: &mut [u64],
) -> u64
    ensures { BoardBooks contacts.now contact_count ranges.now range_count book.old booked.old (asked source destination time size deadline excluded) class chain.old answer.old result book.new booked.new chain.new answer.new }
{
    let ask = ask_of(source, destination, time, size, deadline, excluded);
    let tables = PlanTables {
        contacts,
        contact_count,
        ranges,
        range_count,
    };
    answer_call(
        answer,
        &mut || book_route(tables, book, booked, ask, class, chain),
    )
}
