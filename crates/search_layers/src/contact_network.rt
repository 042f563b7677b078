// A plan as it serves an ask, with the ask and its contacts in lists: what the search goes through.
ghost use Rattle.search_layers.specs.Words.{Listed};
ghost use Rattle.search_layers.specs.WordProps.{listed_prop};

use service::ServedPlan;
use units::CheckedAsk;

// The plan and the ask, and the contacts in lists by the node that they are from: the first one of each
// node, and behind each contact the next one of its node.
#[derive(Clone, Copy)]
pub struct ContactNetwork<'a> {
    pub service: ServedPlan<'a>,
    pub ask: CheckedAsk,
    pub heads: &'a [u16],
    pub nexts: &'a [u16],
    pub ghost listed: { Listed service.contacts.now service.contact_count heads.now nexts.now } by { listed_prop _ _ _ _ },
}
