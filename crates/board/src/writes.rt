// `write` as a C function.
ghost use Rattle.board.specs.Faces.{BoardWrites};

use board_face::answer_call;
use plan::PlanTables;
use text_write::write;

// Writes the text of the plan that the tables hold.
#[unsafe(no_mangle)]
pub extern "C" fn oivarnum_write(
    contacts: &[u64],
    contact_count: usize,
    ranges: &[u64],
    range_count: usize,
    out: &mut [u8],
    answer: &mut [u64],
) -> u64
    ensures { BoardWrites contacts.now contact_count ranges.now range_count out.old answer.old result out.new answer.new }
{
    let tables = PlanTables {
        contacts,
        contact_count,
        ranges,
        range_count,
    };
    answer_call(answer, &mut || write(tables, out))
}
