// A booking as a place holds it: whether it is good, and what it takes of the contacts of its chain.
ghost use Rattle.std.specs.Prelude.{◌≡◌, ◌==◌, ◌-◌, ◌≤◌, ◌&&◌, leb, get_or, set};
ghost use Rattle.std.specs.List.{list_all, list_any};
ghost use Rattle.plan.specs.Plan.{Each};
ghost use Rattle.plan.specs.Verdict.{Verdict};
ghost use Rattle.book.specs.Book.{GoodBooking, taken};
ghost use Rattle.book.specs.Model.{HasWord, Spent, once};

use std::marker::Model;
use units::{ContactNo, MOST_CHAIN, MOST_CLASS, MOST_CONSUMPTION};

// A booking: its class, its consumption in bytes, and the numbers of the contacts of its chain.
#[derive(Drop)]
pub struct Booked<'a> {
    pub class: u64,
    pub consumption: u64,
    pub chain: &'a [u16],
}

impl<'a> Model for Booked<'a> {
    ghost use Rattle.book.specs.Book.{Booking};

    ghost Value = { Booking };

    ghost view = { λ b. record { class = b.class; consumption = b.consumption; chain = b.chain.now } };
}

impl<'a> Booked<'a> {
    // Whether every value is in its range, and every contact is one of so many.
    pub fn is_good(&self, contact_count: usize) -> bool
        ensures { Verdict (GoodBooking contact_count self.now) result }
    {
        (1 <= self.class)
            & (self.class <= MOST_CLASS)
            & (1 <= self.consumption)
            & (self.consumption <= MOST_CONSUMPTION)
            & (1 <= self.chain.len())
            & (self.chain.len() <= MOST_CHAIN)
            & are_named(self.chain, contact_count)
    }

    // Takes what it uses of each contact in that class.
    pub fn spend(&self, class: u64, lefts: &mut [u64])
        requires { Each (HasWord lefts.old) self.now.chain }
        ensures { Spent (taken self.now class) lefts.old lefts.new }
    {
        if class <= self.class {
            spend_chain(self.chain, self.consumption, lefts);
        }
    }
}

// Whether each contact of the chain is one of so many. A number is widened first, so that both its bounds are one comparison.
fn are_named(chain: &[u16], contact_count: usize) -> bool
    ensures { result ≡ list_all (λ no. leb 1 no && leb no contact_count) chain.now }
{
    chain.iter().all(|no| {
        let no = usize::from(*no);
        (1 <= no) & (no <= contact_count)
    })
}

// Whether the number is one of these. `contains` takes its time to begin, so the first is looked at by itself: a chain that
// names one contact again and again is told by it.
fn is_among(numbers: &[u16], no: u16) -> bool
    ensures { result ≡ list_any (λ x. x == no) numbers.now }
{
    match numbers.first() {
        Some(first) => *first == no || numbers.contains(&no),
        None => false,
    }
}

// Takes so many bytes from what is left on one contact.
fn spend_one(lefts: &mut [u64], no: ContactNo, amount: u64)
    requires { HasWord lefts.old no.0 }
    ensures { lefts.new ≡ set lefts.old (no.0 - 1) (get_or lefts.old (no.0 - 1) 0 - amount) }
{
    let at = (no.0 - 1) as usize;
    lefts[at] = lefts[at].saturating_sub(amount);
}

// Takes them from what is left on each contact that the chain names, however often it names it.
fn spend_chain(chain: &[u16], amount: u64, lefts: &mut [u64])
    requires { Each (HasWord lefts.old) chain.now }
    ensures { Spent (once chain.now amount) lefts.old lefts.new }
{
    for (i, no) in chain.iter().enumerate() {
        if !is_among(&chain[..i], *no) {
            spend_one(lefts, ContactNo(u64::from(*no)), amount);
        }
    }
}
