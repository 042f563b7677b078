// The ranges of a plan in lists, one for each slot.
ghost use Rattle.std.specs.Prelude.{true, ◌≡◌};
ghost use Rattle.plan_lists.specs.Lists.{InOrder};
ghost use Rattle.plan_light.specs.Listed.{listed_prop, in_order_prop};
ghost use Rattle.plan_light.specs.Model.{RangesListed};

// Ranges, and the first one of each slot, and behind each the next one of its slot. `ordered` says that each
// is known to end no later than the next one of its slot starts.
#[derive(Clone, Copy)]
pub struct RangeLists<'a> {
    pub ranges: &'a [u64],
    pub range_count: usize,
    pub heads: &'a [u16],
    pub nexts: &'a [u16],
    pub ordered: bool,
    pub ghost listed: { RangesListed ranges.now range_count heads.now nexts.now } by { listed_prop _ _ _ _ },
    pub ghost in_order: { ordered ≡ true → InOrder ranges.now range_count nexts.now } by { in_order_prop _ _ _ _ },
}
