// The public call `release`: a booking's place and volume are free again.
ghost use Rattle.calls_book.specs.Placing.{Releases};

use book::{is_book, is_open};
use book_keeping::free;
use plan::PlanTables;
use plan_valid::CheckedPlan;
use units::{MOST_PLACES, Refusal};

// Frees the place of that number, counted from 1, where it is open.
pub fn release(
    tables: PlanTables,
    places: &mut [u64],
    chains: &[u16],
    place: u64,
) -> Result<(), Refusal>
    ensures { Releases tables.entry.contacts.now tables.entry.contact_count tables.entry.ranges.now tables.entry.range_count places.old chains.now place result places.new }
{
    if CheckedPlan::of(tables).is_none() {
        return Err(Refusal::NoPlan);
    }
    if !is_book(places, chains, tables.contact_count) {
        return Err(Refusal::NoPlan);
    }
    if place < 1 || (MOST_PLACES as u64) < place {
        return Err(Refusal::NotOpen);
    }
    let k = (place - 1) as usize;
    if !is_open(places, k) {
        return Err(Refusal::NotOpen);
    }
    free(places, k);
    Ok(())
}
