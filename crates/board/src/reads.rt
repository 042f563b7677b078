// `read` as a C function.
ghost use Rattle.board.specs.Faces.{BoardReads};

use board_face::answer_call;
use text_read::read;

// Reads the plan that the text is into the lent tables.
#[unsafe(no_mangle)]
pub extern "C" fn oivarnum_read(
    text: &[u8],
    contacts: &mut [u64],
    ranges: &mut [u64],
    answer: &mut [u64],
) -> u64
    ensures { BoardReads text.now contacts.old ranges.old answer.old result contacts.new ranges.new answer.new }
{
    answer_call(answer, &mut || read(text, contacts, ranges))
}
