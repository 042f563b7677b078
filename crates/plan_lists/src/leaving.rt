// The contacts linked by the node that they are from, and the first contact of a node.
ghost use Rattle.std.specs.Prelude.{◌≡◌, ◌+◌, ◌-◌, ◌*◌, ◌≤◌, ◌<◌, length, get_or};
ghost use Rattle.units.specs.Limits.{most_nodes, IsNode};
ghost use Rattle.plan.specs.Tables.{words, contact_at};
ghost use Rattle.plan_lists.specs.Lists.{Linked};
ghost use Rattle.plan_lists.specs.Leaving.{from_at, LinkableFrom};

use crate::linking::enter;
use plan::{Contact, Row};
use units::NodeNo;

// The node that contact k is from, counted from 0.
fn leaves(contacts: &[u64], k: usize) -> usize
    requires { (k * words + words ≤ length contacts.now) × IsNode (contact_at contacts.now k).from }
    ensures { (result ≡ from_at contacts.now k) × (result < most_nodes) }
{
    (Contact::read(contacts, k).from.0 - 1) as usize
}

// Links the first n contacts: `heads` has the first contact of each node, and `nexts` for each contact
// the next one from its node, with n where there is none. `link` has a loop of its own over `enter`: it reads
// a row once, for its slot and for the order.
pub fn link_from(contacts: &[u64], n: usize, heads: &mut [u16], nexts: &mut [u16])
    requires { LinkableFrom contacts.now n heads.old nexts.old }
    ensures { Linked (from_at contacts.now) n heads.new nexts.new × (length heads.new ≡ length heads.old) × (length nexts.new ≡ length nexts.old) }
{
    heads.fill(n as u16);
    for i in (0..n).rev() {
        enter(heads, nexts, leaves(contacts, i), i);
    }
}

// The row of the first contact from that node.
pub fn first_from(heads: &[u16], node: NodeNo) -> usize
    requires { IsNode node × (length heads.now ≡ most_nodes) }
    ensures { result ≡ get_or heads.now (node.0 - 1) 0 }
{
    let at = (node.0 - 1) as usize;
    usize::from(heads[at])
}
