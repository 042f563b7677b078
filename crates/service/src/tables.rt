// What stands beside the contacts: a table of light times and one of the bytes that are left, and the struct
// that keeps the three tables together and reads them.
ghost use Rattle.std.specs.Prelude.{◌≡◌, ◌-◌, ◌≤◌, length};
ghost use Rattle.plan.specs.Plan.{GoodContact};
ghost use Rattle.plan.specs.Props.{good_contact_prop};
ghost use Rattle.service.specs.Service.{LightGood};
ghost use Rattle.service.specs.SoundProp.{is_service_prop, light_good_prop};
ghost use Rattle.service.specs.Tables.{light_word, light_at, left_at, IsService};

use plan::{Contact, contact_numbered};
use units::{ContactNo, Millis};

// The words of tables that are not filled yet. Their bytes are not all the same, so that an array is filled
// word by word and not byte by byte.
pub const BLANK_LIGHT: u32 = 1;

pub const BLANK_LEFT: u64 = 1;

// The word of a contact that has no light time. It stands for None, for fixed memory: 512 Options of a time
// take four times the words; `light_numbered` answers an Option.
pub const UNRANGED: u32 = 4_294_967_295;

// A contact with its light time, if it has one, and the bytes that are left on it.
#[derive(Clone, Copy)]
pub struct Pass {
    pub contact: Contact,
    pub light: Option<Millis>,
    pub left: u64,
    pub ghost contact_good: { GoodContact contact } by { good_contact_prop _ },
    pub ghost light_good: { LightGood light } by { light_good_prop _ },
}

// The plan as it serves an ask: its contacts, and beside each its light time and the bytes that are left on it.
#[derive(Clone, Copy)]
pub struct ServedPlan<'a> {
    pub contacts: &'a [u64],
    pub contact_count: usize,
    pub lights: &'a [u32],
    pub lefts: &'a [u64],
    pub ghost sound: { IsService contacts.now contact_count lights.now lefts.now } by { is_service_prop _ _ _ _ },
}

// The light time that a word stands for.
fn light_of(word: u32) -> Option<Millis>
    ensures { result ≡ light_word word }
{
    if word == UNRANGED {
        None
    } else {
        Some(Millis(word as u64))
    }
}

// The light time of the contact of that number, or none.
pub fn light_numbered(lights: &[u32], no: ContactNo) -> Option<Millis>
    requires { (1 ≤ no.0) × (no.0 ≤ length lights.now) }
    ensures { result ≡ light_at lights.now (no.0 - 1) }
{
    light_of(lights[(no.0 - 1) as usize])
}

// The bytes that are left on the contact of that number.
pub fn left_numbered(lefts: &[u64], no: ContactNo) -> u64
    requires { (1 ≤ no.0) × (no.0 ≤ length lefts.now) }
    ensures { result ≡ left_at lefts.now (no.0 - 1) }
{
    lefts[(no.0 - 1) as usize]
}

impl<'a> ServedPlan<'a> {
    ghost use Rattle.std.specs.Prelude.{◌&&◌, leb};
    ghost use Rattle.service.specs.Service.{InPlan, contact_of, light_in, left_in};
    ghost use Rattle.service.specs.Held.{service_in};

    // Whether the number names a contact of the plan.
    pub fn has(&self, no: ContactNo) -> bool
        ensures { result ≡ (leb 1 no.0 && leb no.0 (length (service_in self.now).contacts)) }
    {
        (1 <= no.0) & (no.0 <= self.contact_count as u64)
    }

    // The contact of that number.
    pub fn contact(&self, no: ContactNo) -> Contact
        requires { InPlan (service_in self.now) no.0 }
        ensures is { result ≡ contact_of (service_in self.now) no.0 }
        ensures good { GoodContact result }
    {
        contact_numbered(self.contacts, no)
    }

    // The contact of that number, with what stands beside it.
    pub fn pass(&self, no: ContactNo) -> Pass
        requires { InPlan (service_in self.now) no.0 }
        ensures contact { result.contact ≡ contact_of (service_in self.now) no.0 }
        ensures light { result.light ≡ light_in (service_in self.now) no.0 }
        ensures left { result.left ≡ left_in (service_in self.now) no.0 }
    {
        Pass {
            contact: self.contact(no),
            light: light_numbered(self.lights, no),
            left: left_numbered(self.lefts, no),
        }
    }
}
