// Lent tables as a good book, and what its bookings use taken from what is left on the contacts.
ghost use Rattle.std.specs.Prelude.{◌≡◌, ◌≤◌, ◌<◌, length, is_some, IfSome};
ghost use Rattle.plan.specs.Verdict.{Verdict};
ghost use Rattle.book.specs.Book.{used};
ghost use Rattle.book.specs.Model.{Spent};
ghost use Rattle.book.specs.OneProof.{IsBook-prop};
ghost use Rattle.book.specs.Tables.{book_of, IsBook};

use crate::places::{OPEN, PLACE_WORDS, Place};
use units::{MOST_CHAIN, MOST_PLACES};

// A good book for a plan of so many contacts.
#[derive(Clone, Copy)]
pub struct Book<'a> {
    pub places: &'a [u64],
    pub chains: &'a [u16],
    pub contact_count: usize,
    pub ghost good: { IsBook contact_count places.now chains.now } by { IsBook-prop contact_count places.now chains.now },
}

impl<'a> Book<'a> {
    // The tables as a book, where they have 256 places and these are good for a plan of so many contacts.
    #[tactic(auto, unfolding(units::specs::Limits::most_places, units::specs::Limits::most_chain))]
    pub fn checked(places: &'a [u64], chains: &'a [u16], contact_count: usize) -> Option<Book<'a>>
        ensures exactly { Verdict (IsBook contact_count places.now chains.now) (is_some result) }
        ensures same { IfSome result (λ b. (b.places.now ≡ places.now) × (b.chains.now ≡ chains.now) × (b.contact_count ≡ contact_count)) }
    {
        if places.len() < MOST_PLACES * PLACE_WORDS || chains.len() < MOST_PLACES * MOST_CHAIN {
            return None;
        }
        for k in 0..MOST_PLACES {
            let place = Place { places, chains, k };
            if !place.is_good(contact_count) {
                return None;
            }
        }
        Some(Book {
            places,
            chains,
            contact_count,
        })
    }

    // Takes from what is left on each contact the bytes that the open bookings of that class or a higher
    // one use of it, to no less than 0.
    #[tactic(auto, unfolding(units::specs::Limits::most_places, units::specs::Limits::most_chain))]
    pub fn spend(self, class: u64, lefts: &mut [u64])
        requires { self.contact_count ≤ length lefts.old }
        ensures { Spent (used (book_of self.entry.places.now self.entry.chains.now) class) lefts.old lefts.new }
    {
        let Book { places, chains, .. } = self;
        for k in 0..MOST_PLACES {
            let place = Place { places, chains, k };
            if place.mark() == OPEN {
                if let Some(booking) = place.booking() {
                    booking.spend(class, lefts);
                }
            }
        }
    }
}

// Whether the tables are a good book for a plan of so many contacts.
pub fn is_book(book: &[u64], booked: &[u16], contact_count: usize) -> bool
    ensures { Verdict (IsBook contact_count book.now booked.now) result }
{
    Book::checked(book, booked, contact_count).is_some()
}
