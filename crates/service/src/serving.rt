// A plan made ready to serve: each contact's light time and its volume, worked out once.
ghost use Rattle.std.specs.Prelude.{◌≡◌, ◌≤◌, length};
ghost use Rattle.plan.specs.Plan.{GoodContact};
ghost use Rattle.plan.specs.Lent.{plan_in};
ghost use Rattle.plan_lists.specs.Lists.{InOrder};
ghost use Rattle.plan_lists.specs.Model.{slots, most_rows};
ghost use Rattle.plan_light.specs.Model.{RangesListed, Kept};
ghost use Rattle.service.specs.Held.{service_in};
ghost use Rattle.service.specs.Model.{NoneKept};
ghost use Rattle.service.specs.Service.{volume, service_of, unused, LightGood};
ghost use Rattle.service.specs.Tables.{light_word, served};

use crate::tables::{ServedPlan, UNRANGED};
use plan::{Contact, Row};
use plan_light::{RangeLists, light_kept};
use plan_lists::{BLANK, MOST_ROWS, SLOTS, link};
use plan_valid::CheckedPlan;
use units::Millis;

// A row that no table has: none is kept yet. Its bytes are not all the same, so that an array of it is
// filled word by word and not byte by byte.
const NONE: u16 = 65_534;

// The bytes that the contact carries in all.
fn volume_of(c: Contact) -> u64
    requires { GoodContact c }
    ensures { result ≡ volume c }
{
    c.rate * (c.end.0 - c.start.0) / 1000
}

// The word that stands for the light time.
fn word_of(light: Option<Millis>) -> u32
    requires { LightGood light }
    ensures { light_word result ≡ light }
{
    match light {
        Some(l) => l.0 as u32,
        None => UNRANGED,
    }
}

// Fills the tables with the plan as it serves an ask, by the lists of its ranges, which are made in the lent
// words.
fn serve_in(
    plan: &CheckedPlan,
    heads: &mut [u16],
    nexts: &mut [u16],
    kept: &mut [u16],
    lights: &mut [u32],
    lefts: &mut [u64],
)
    requires { (length heads.old ≡ slots) × (most_rows ≤ length nexts.old) × NoneKept kept.old × (plan.now.tables.contact_count ≤ length lights.old) × (plan.now.tables.contact_count ≤ length lefts.old) }
    ensures { (served plan.now.tables.contacts.now plan.now.tables.contact_count lights.new lefts.new ≡ service_of (plan_in plan.now.tables) unused) × (length lights.new ≡ length lights.old) × (length lefts.new ≡ length lefts.old) }
{
    let ordered = link(plan.tables.ranges, plan.tables.range_count, heads, nexts);
    let lists = RangeLists {
        ranges: plan.tables.ranges,
        range_count: plan.tables.range_count,
        heads,
        nexts,
        ordered,
    };
    for k in 0..plan.tables.contact_count {
        let c = Contact::read(plan.tables.contacts, k);
        let light = light_kept(&lists, kept, c);
        lights[k] = word_of(light);
        lefts[k] = volume_of(c);
    }
}

// Fills the tables with the plan as it serves an ask, where nothing is used. The lists have words of
// their own, and so has what is kept along them: nothing yet.
pub fn serve(plan: &CheckedPlan, lights: &mut [u32], lefts: &mut [u64])
    requires { (plan.now.tables.contact_count ≤ length lights.old) × (plan.now.tables.contact_count ≤ length lefts.old) }
    ensures { (served plan.now.tables.contacts.now plan.now.tables.contact_count lights.new lefts.new ≡ service_of (plan_in plan.now.tables) unused) × (length lights.new ≡ length lights.old) × (length lefts.new ≡ length lefts.old) }
{
    let mut heads = [BLANK; SLOTS];
    let mut nexts = [BLANK; MOST_ROWS];
    let mut kept = [NONE; MOST_ROWS];
    serve_in(plan, &mut heads, &mut nexts, &mut kept, lights, lefts);
}

impl<'a> ServedPlan<'a> {
    // The plan as it serves an ask where nothing is booked, by way of the tables lent.
    pub fn unbooked(
        plan: &'a CheckedPlan,
        lights: &'a mut [u32],
        lefts: &'a mut [u64],
    ) -> ServedPlan<'a>
        requires { (plan.now.tables.contact_count ≤ length lights.old) × (plan.now.tables.contact_count ≤ length lefts.old) }
        ensures { service_in result ≡ service_of (plan_in plan.now.tables) unused }
    {
        serve(plan, lights, lefts);
        ServedPlan {
            contacts: plan.tables.contacts,
            contact_count: plan.tables.contact_count,
            lights,
            lefts,
        }
    }
}
