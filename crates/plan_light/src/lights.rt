// The light time of a contact. The ranges of its slot are taken one after the other along their list: the
// time that each range of its pair shares with the contact is taken from what is missing, and the
// largest light time among them kept. Where the ranges are in order, those that ended by the start of an
// earlier contact are not looked at again for one that starts no earlier, nor those behind the contact's end.
ghost use Rattle.std.specs.Prelude.{true, ◌&&◌, cond, ◌≡◌, ◌*◌, ◌≤◌, ◌<◌, min, max, leb, eqb, length};
ghost use Rattle.plan.specs.Light.{Joins, shared_by, light_of};
ghost use Rattle.plan.specs.Plan.{GoodContact, GoodRange};
ghost use Rattle.plan.specs.Tables.{words, range_at, rows_from};
ghost use Rattle.plan_lists.specs.Lists.{LeastFrom, pair_slot, slot_at, InOrder};
ghost use Rattle.plan_light.specs.Model.{pair_of, RangesLinked, RangesListed, Passed, Past, Kept};

use crate::lists::RangeLists;
use plan::{Contact, Range, Row, Span};
use plan_lists::{head_of, next_of};
use units::Millis;

// The contact's pair, the lower node first: as the ranges have it.
fn pair_of(c: Contact) -> Span
    ensures { result ≡ pair_of c }
{
    Span {
        start: c.start,
        end: c.end,
        one: c.from.min(c.to),
        other: c.from.max(c.to),
    }
}

// Whether the range is of the pair of nodes.
fn is_joining(r: Range, pair: Span) -> bool
    ensures { result ≡ (eqb r.a.0 pair.one.0 && eqb r.b.0 pair.other.0) }
{
    (r.a == pair.one) & (r.b == pair.other)
}

// The milliseconds that a range shares with the contact, which is of that pair.
fn shared_by(r: Range, pair: Span, c: Contact) -> u64
    requires { GoodRange r × GoodContact c × (pair ≡ pair_of c) }
    ensures { result ≡ shared_by r c }
{
    if !is_joining(r, pair) {
        return 0;
    }
    let start = r.start.max(c.start);
    let end = r.end.min(c.end);
    end.0.saturating_sub(start.0)
}

// The largest light time so far with that of one more range, which counts where it shares time.
fn largest_with(light: Millis, shared: u64, so_far: Millis) -> Millis
    ensures { result.0 ≡ cond (leb 1 shared) (max light.0 so_far.0) so_far.0 }
{
    if shared == 0 {
        return so_far;
    }
    light.max(so_far)
}

// Whether the range covers all of the contact, which is of that pair.
fn is_covering(r: Range, pair: Span, c: Contact) -> bool
    requires { pair ≡ pair_of c }
    ensures { result ≡ true → Joins r c × (r.start.0 ≤ c.start.0) × (c.end.0 ≤ r.end.0) }
{
    if c.start < r.start {
        return false;
    }
    if r.end < c.end {
        return false;
    }
    is_joining(r, pair)
}

// Whether the range and all behind it in an ordered list start no earlier than the contact ends.
fn is_behind(ordered: bool, r: Range, c: Contact) -> bool
    ensures { result ≡ true → (ordered ≡ true) × (c.end.0 ≤ r.start.0) }
{
    if !ordered {
        return false;
    }
    c.end <= r.start
}

// The largest light time of the ranges that share time with the contact, or none where they do not
// cover all of it: ranges of one pair do not overlap, so they cover it where no time is missing, and
// then no other one shares time with it. Those before row `begin` share none.
fn light_along(lists: &RangeLists, begin: usize, c: Contact) -> Option<Millis>
    requires { GoodContact c × Passed lists.now.ranges.now lists.now.range_count (pair_slot (pair_of c)) c.start.0 begin }
    ensures { result ≡ light_of (rows_from (range_at lists.now.ranges.now) 0 lists.now.range_count) c }
{
    let pair = pair_of(c);
    let mut missing = c.end.0 - c.start.0;
    let mut light = Millis(0);
    let mut j = begin;
    // Along a list, and not by counting: no `for`.
    while j < lists.range_count {
        let r = Range::read(lists.ranges, j);
        if is_behind(lists.ordered, r, c) {
            return None;
        }
        let shared = shared_by(r, pair, c);
        light = largest_with(r.light, shared, light);
        missing -= shared;
        if missing == 0 {
            return Some(light);
        }
        j = next_of(lists.nexts, j);
    }
    None
}

// The last range of the list from row `begin` on that ends by the time, as the one in that row does.
fn pass_over(lists: &RangeLists, begin: usize, time: Millis) -> usize
    requires { Past lists.now.ranges.now lists.now.range_count (slot_at lists.now.ranges.now begin) time.0 begin }
    ensures { Past lists.now.ranges.now lists.now.range_count (slot_at lists.now.ranges.now begin) time.0 result }
{
    let mut j = begin;
    let mut next = next_of(lists.nexts, j);
    // Along a list, and not by counting: no `for`.
    while next < lists.range_count {
        if time < Range::read(lists.ranges, next).end {
            return j;
        }
        j = next;
        next = next_of(lists.nexts, j);
    }
    j
}

// A range of the list of row `head` that ends by the time: the one kept beside it, if it does, or else the
// one in row `head`, which does.
fn begin_at(lists: &RangeLists, kept: &[u16], head: usize, time: Millis) -> usize
    requires { Kept lists.now.ranges.now lists.now.range_count kept.now × Past lists.now.ranges.now lists.now.range_count (slot_at lists.now.ranges.now head) time.0 head }
    ensures { Past lists.now.ranges.now lists.now.range_count (slot_at lists.now.ranges.now head) time.0 result }
{
    let row = usize::from(kept[head]);
    if lists.range_count <= row {
        return head;
    }
    if time < Range::read(lists.ranges, row).end {
        return head;
    }
    row
}

// The row that a walk begins at for a contact that starts at that time: behind ranges that ended by then,
// where the ranges are in order, and the last one passed is kept beside the first row of the list; or
// else that first row.
fn open_row(lists: &RangeLists, kept: &mut [u16], head: usize, time: Millis) -> usize
    requires { Kept lists.now.ranges.now lists.now.range_count kept.old × (head < lists.now.range_count) × LeastFrom (slot_at lists.now.ranges.now) 0 lists.now.range_count (slot_at lists.now.ranges.now head) head }
    ensures { Passed lists.now.ranges.now lists.now.range_count (slot_at lists.now.ranges.now head) time.0 result × Kept lists.now.ranges.now lists.now.range_count kept.new × (length kept.new ≡ length kept.old) }
{
    if !lists.ordered {
        return head;
    }
    if time < Range::read(lists.ranges, head).end {
        return head;
    }
    let begin = begin_at(lists, kept, head, time);
    let past = pass_over(lists, begin, time);
    kept[head] = past as u16;
    next_of(lists.nexts, past)
}

// The contact's light time: by the first range of its list alone, where that one covers all of the contact,
// or else by a walk along the list.
pub fn light_kept(lists: &RangeLists, kept: &mut [u16], c: Contact) -> Option<Millis>
    requires { GoodContact c × Kept lists.now.ranges.now lists.now.range_count kept.old }
    ensures { (result ≡ light_of (rows_from (range_at lists.now.ranges.now) 0 lists.now.range_count) c) × Kept lists.now.ranges.now lists.now.range_count kept.new × (length kept.new ≡ length kept.old) }
{
    let pair = pair_of(c);
    let head = head_of(lists.heads, pair);
    if lists.range_count <= head {
        return None;
    }
    let r = Range::read(lists.ranges, head);
    if is_covering(r, pair, c) {
        return Some(r.light);
    }
    let open = open_row(lists, kept, head, c.start);
    light_along(lists, open, c)
}
