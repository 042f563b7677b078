// `release` as a C function.
ghost use Rattle.board.specs.Booked.{BoardReleases};

use board_face::answer_call;
use calls_book::release;
use plan::PlanTables;

// Frees the place of that number, counted from 1, where it is open.
#[unsafe(no_mangle)]
pub extern "C" fn oivarnum_release(
    contacts: &[u64],
    contact_count: usize,
    ranges: &[u64],
    range_count: usize,
    book: &mut [u64],
    booked: &[u16],
    place: u64,
    answer: &mut [u64],
) -> u64
    ensures { BoardReleases contacts.now contact_count ranges.now range_count book.old booked.now place answer.old result book.new answer.new }
{
    let tables = PlanTables {
        contacts,
        contact_count,
        ranges,
        range_count,
    };
    answer_call(answer, &mut || release(tables, book, booked, place))
}
