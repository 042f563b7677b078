// The words of an answer into the lent answer.
ghost use Rattle.std.specs.Prelude.{◌≡◌, ◌≤◌, ◌<◌, length, Result};
ghost use Rattle.units.specs.declared.Refusal.{Refusal};
ghost use Rattle.board_face.specs.Layout.{no_room_number, answer_words_of, Answered};

use crate::words::{ANSWER_WORDS, Words};
use units::{Refusal, number, place};

// What is returned where the lent answer has fewer words than the call answers: the number of refusal 10.
pub fn no_room() -> u64
    ensures { result ≡ no_room_number }
{
    number(Refusal::ShortOutput(ANSWER_WORDS as u64))
}

// The answer of a call into the lent answer: two noughts and what it tells, or the number and the place of
// its refusal. Returns the first of these words.
pub fn put_answer<T: Words>(answer: Result<T, Refusal>, lent: &mut [u64]) -> u64
    requires { T.ROOM ≤ length lent.old }
    ensures { Answered (answer_words_of T.words_of answer) lent.old result lent.new }
{
    match answer {
        Ok(told) => {
            lent[0] = 0;
            lent[1] = 0;
            told.put(&mut lent[2..]);
            0
        }
        Err(why) => {
            lent[0] = number(why);
            lent[1] = place(why);
            lent[0]
        }
    }
}

// The answer of a call laid out in the lent answer, where that has room for it. Where it has not, refusal 10
// is returned and the call is not made, so that what it would change stays as it is. The call is lent, and
// not given, so that this can be said of it.
pub fn answer_call<T: Words, F: FnMut() -> Result<T, Refusal>>(
    lent: &mut [u64],
    call: &mut F,
) -> u64
    requires { F.pre call.old }
    ensures short { length lent.old < T.ROOM → (result ≡ no_room_number) × (lent.new ≡ lent.old) × (call.new ≡ call.old) }
    ensures made { T.ROOM ≤ length lent.old → (answer : Result T Refusal) × F.step call.old answer call.new × Answered (answer_words_of T.words_of answer) lent.old result lent.new }
{
    if lent.len() < T::ROOM {
        return no_room();
    }
    put_answer(call(), lent)
}
