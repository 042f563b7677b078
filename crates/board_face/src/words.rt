// What the calls tell on success, as words.
ghost use Rattle.std.specs.Prelude.{List, ℕ, ◌≡◌, ◌++◌, ◌≤◌, length, drop};
ghost use Rattle.board_face.specs.Layout.{answer_words, booked_words, count_words, length_words, figure_words, best_words, place_words, no_words};
ghost use Rattle.board_face.specs.WordKinds.{count_laws, length_laws, figure_laws, best_laws, place_laws, no_laws};
ghost use Rattle.board_face.specs.WordLaws.{WordLaws};

use calls_book::Placed;
use search::Best;
use text::Counts;
use walk::Figures;

// The words that every lent answer must have.
pub const ANSWER_WORDS: usize = 7;

// Those that the lent answer of a booking must have: the place comes behind the count.
pub const BOOKED_WORDS: usize = 8;

// What a call tells on success: its words stand in the lent answer behind two noughts.
pub trait Words {
    // Its words.
    ghost words_of: { Self → List ℕ };

    // How many words the lent answer of such a call must have.
    ghost ROOM: { ℕ };

    const ROOM: usize;

    // Its words into the first of those lent.
    fn put(self, lent: &mut [u64])
        requires { length (words_of self) ≤ length lent.old }
        ensures { lent.new ≡ words_of self ++ drop (length (words_of self)) lent.old };

    // What each kind must prove.
    ghost laws: { WordLaws words_of ROOM };
}

// The two counts of a text that was read.
impl Words for Counts {
    ghost words_of = { count_words };

    ghost ROOM = { answer_words };

    ghost laws = { count_laws };

    const ROOM: usize = ANSWER_WORDS;

    fn put(self, lent: &mut [u64]) {
        lent[0] = self.contacts as u64;
        lent[1] = self.ranges as u64;
    }
}

// The length of a text that was written.
impl Words for usize {
    ghost words_of = { length_words };

    ghost ROOM = { answer_words };

    ghost laws = { length_laws };

    const ROOM: usize = ANSWER_WORDS;

    fn put(self, lent: &mut [u64]) {
        lent[0] = self as u64;
    }
}

// The figures of a chain.
impl Words for Figures {
    ghost words_of = { figure_words };

    ghost ROOM = { answer_words };

    ghost laws = { figure_laws };

    const ROOM: usize = ANSWER_WORDS;

    fn put(self, lent: &mut [u64]) {
        lent[0] = self.delivery.0;
        lent[1] = self.opens.0;
        lent[2] = self.last_call.0;
        lent[3] = self.room;
    }
}

// The same of the best chain, and how many contacts it has.
impl Words for Best {
    ghost words_of = { best_words };

    ghost ROOM = { answer_words };

    ghost laws = { best_laws };

    const ROOM: usize = ANSWER_WORDS;

    fn put(self, lent: &mut [u64]) {
        self.figures.put(lent);
        lent[4] = self.count as u64;
    }
}

// The same of the chain that was booked, and the booking's place.
impl Words for Placed {
    ghost words_of = { place_words };

    ghost ROOM = { booked_words };

    ghost laws = { place_laws };

    const ROOM: usize = BOOKED_WORDS;

    fn put(self, lent: &mut [u64]) {
        let best = Best {
            figures: self.figures,
            count: self.count,
        };
        best.put(lent);
        lent[5] = self.place;
    }
}

// Nothing, where a place was freed.
impl Words for () {
    ghost words_of = { no_words };

    ghost ROOM = { answer_words };

    ghost laws = { no_laws };

    const ROOM: usize = ANSWER_WORDS;

    fn put(self, _lent: &mut [u64]) {}
}
