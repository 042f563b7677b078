// A booking entered in a place: its four words, and its contact numbers.
ghost use Rattle.std.specs.Prelude.{[], ◌∷◌, ◌≡◌, ◌+◌, ◌*◌, ◌≤◌, length};
ghost use Rattle.std.proofs.lemmas.List.Edits.{sets};
ghost use Rattle.book.specs.Tables.{place_words, open_mark};
ghost use Rattle.book_keeping.specs.Keeping.{entered, entered_chain};
ghost use Rattle.book_keeping.specs.Model.{ChainFits};

use book::{OPEN, PLACE_WORDS};
use units::MOST_CHAIN;

// Stores the contact numbers of a chain beside place k.
#[tactic(auto, unfolding(units::specs::Limits::most_chain))]
fn enter_chain(booked: &mut [u16], k: usize, chain: &[u64])
    requires { ChainFits booked.old k chain.now }
    ensures { booked.new ≡ entered_chain booked.old k chain.now }
{
    for (i, number) in chain.iter().enumerate() {
        booked[k * MOST_CHAIN + i] = *number as u16;
    }
}

// Enters an open booking in place k of both tables.
pub fn enter(
    book: &mut [u64],
    booked: &mut [u16],
    k: usize,
    class: u64,
    consumption: u64,
    chain: &[u64],
)
    requires { (k * place_words + place_words ≤ length book.old) × ChainFits booked.old k chain.now }
    ensures { (book.new ≡ entered book.old k (record { class = class; consumption = consumption; chain = chain.now })) × (booked.new ≡ entered_chain booked.old k chain.now) }
{
    let words = [OPEN, class, consumption, chain.len() as u64];
    let at = k * PLACE_WORDS;
    book[at..at + PLACE_WORDS].copy_from_slice(&words);
    enter_chain(booked, k, chain);
}
