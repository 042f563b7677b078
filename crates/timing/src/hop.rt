// One hop: a file sent over one contact.
ghost use Rattle.std.specs.Prelude.{◌≡◌, ◌+◌, ◌≤◌, max};
ghost use Rattle.units.specs.Limits.{most_size, most_rate, last_time, most_light};
ghost use Rattle.timing.specs.Hop.{consumed, sent, hopped};
ghost use Rattle.timing.specs.Model.{back_over};

use service::Pass;
use units::Millis;

// The bytes that a file takes on a contact: its size, three for each whole hundred bytes of it, and three
// hundredths of the rest, rounded up.
#[tactic(auto, unfolding(units::specs::Limits::most_size, crate::specs::Hop::consumed))]
pub fn consumption(size: u64) -> u64
    requires { size ≤ most_size }
    ensures { result ≡ consumed size }
{
    size + 3 * (size / 100) + (3 * (size % 100) + 99) / 100
}

// How long a contact of that rate sends a file of that size, rounded up.
#[tactic(auto, using(crate::proofs::Rounding::consumed_most), unfolding(units::specs::Limits::most_rate, crate::specs::Hop::sent))]
pub fn sending(size: u64, rate: u64) -> Millis
    requires { (size ≤ most_size) × (1 ≤ rate) × (rate ≤ most_rate) }
    ensures { result.0 ≡ sent size rate }
{
    Millis((consumption(size) * 1000 + (rate - 1)) / rate)
}

// When the file is done being sent over the contact, if it is ready before it at `ready`.
#[tactic(auto, using(crate::proofs::Rounding::sent_most), unfolding(units::specs::Limits::last_time, units::specs::Limits::most_light))]
fn done_at(pass: Pass, size: u64, ready: Millis) -> Millis
    requires { (size ≤ most_size) × (ready.0 ≤ last_time + most_light) }
    ensures { result.0 ≡ max ready.0 pass.contact.start.0 + sent size pass.contact.rate }
{
    Millis(ready.max(pass.contact.start).0 + sending(size, pass.contact.rate).0)
}

// When the file is ready behind the contact, if it is ready before it at `ready`: never where the contact
// has no light time, or the file does not fit it.
#[tactic(auto, unfolding(crate::specs::Hop::hopped))]
pub fn hop_over(pass: Pass, size: u64, ready: Millis) -> Option<Millis>
    requires { (size ≤ most_size) × (ready.0 ≤ last_time + most_light) }
    ensures { result ≡ hopped pass.light pass.left pass.contact size ready.0 }
{
    let light = pass.light?;
    let done = done_at(pass, size, ready);
    if pass.contact.end < done {
        return None;
    }
    if pass.left < consumption(size) {
        return None;
    }
    Some(Millis(done.0 + light.0))
}

// The limit below which the file must be ready before the contact, so that it is ready behind it
// below `limit`; 0 where it never is: no time is below 0, so no case is special, and an Option would be one.
#[tactic(auto, unfolding(crate::specs::Model::back_over))]
pub fn back(pass: Pass, size: u64, limit: Millis) -> Millis
    requires { size ≤ most_size }
    ensures { result.0 ≡ back_over pass.light pass.left pass.contact size limit.0 }
{
    let Some(light) = pass.light else {
        return Millis(0);
    };
    let send = sending(size, pass.contact.rate).0;
    let by_end = (pass.contact.end.0 + 1).saturating_sub(send);
    let by_limit = limit.0.saturating_sub(send + light.0);
    let most = by_end.min(by_limit);
    if most <= pass.contact.start.0 {
        return Millis(0);
    }
    if pass.left < consumption(size) {
        return Millis(0);
    }
    Millis(most)
}
