// The public call `book_route`: the best chain, booked in the lowest free place.
ghost use Rattle.std.specs.Prelude.{◌≡◌};
ghost use Rattle.book_keeping.specs.Keeping.{AllOpen, entered, entered_chain};
ghost use Rattle.calls_book.specs.Model.{RefusedFor, Bookable};
ghost use Rattle.calls_book.specs.Placing.{booking_of, BooksRoute};

use crate::answers::Placed;
use book::BookTables;
use book_keeping::{enter, lowest_free};
use calls::{CheckedCall, checks, route_good};
use plan::PlanTables;
use search::Best;
use timing::consumption;
use units::{Ask, MOST_CHAIN, Refusal};

// Why a checked call is refused where no place is free: why there is no route, or that the book is full. The
// chain is worked out aside, so that the lent one stays as it is.
fn refuse_full(call: &CheckedCall) -> Refusal
    requires { AllOpen call.now.book.places.now }
    ensures { RefusedFor call.now.plan.tables.contacts.now call.now.plan.tables.contact_count call.now.plan.tables.ranges.now call.now.plan.tables.range_count call.now.book.places.now call.now.book.chains.now call.now.ask.asked call.now.class result }
{
    let mut aside = [0u64; MOST_CHAIN];
    match route_good(call, &mut aside) {
        Err(why) => why,
        Ok(_) => Refusal::FullBook,
    }
}

// Books the chain in place k.
fn book_chain(places: &mut [u64], chains: &mut [u16], k: usize, ask: Ask, class: u64, chain: &[u64])
    requires { Bookable places.old chains.old k ask class chain.now }
    ensures places { places.new ≡ entered places.old k (booking_of ask class chain.now) }
    ensures chains { chains.new ≡ entered_chain chains.old k chain.now }
{
    let bytes = consumption(ask.size);
    enter(places, chains, k, class, bytes, chain);
}

// Works out the best chain for an ask of that class over the plan and the book that the tables hold, and
// books it in the lowest free place.
pub fn book_route(
    tables: PlanTables,
    places: &mut [u64],
    chains: &mut [u16],
    ask: Ask,
    class: u64,
    chain: &mut [u64],
) -> Result<Placed, Refusal>
    ensures { BooksRoute tables.entry.contacts.now tables.entry.contact_count tables.entry.ranges.now tables.entry.range_count places.old chains.old ask class chain.old result places.new chains.new chain.new }
{
    if chain.len() < MOST_CHAIN {
        return Err(Refusal::ShortChain);
    }
    let call = checks(tables, BookTables { places, chains }, ask, class)?;
    let Some(k) = lowest_free(places) else {
        return Err(refuse_full(&call));
    };
    let Best { figures, count } = route_good(&call, chain)?;
    book_chain(places, chains, k, ask, class, &chain[..count]);
    let placed = Placed {
        figures,
        count,
        place: k as u64 + 1,
    };
    Ok(placed)
}
