// The words of the layers: a row of words a layer, a word a node. `place` and `copy_row` alone know where a
// row stands, and that node n stands at word n - 1 of it.
ghost use Rattle.std.specs.Prelude.{◌≡◌, ◌+◌, ◌-◌, ◌*◌, ◌^◌, ◌≤◌, ◌<◌, length, get_or};
ghost use Rattle.units.specs.Limits.{most_nodes, IsNode};
ghost use Rattle.plan.specs.Plan.{Each};
ghost use Rattle.plan.specs.Props.{each_prop};
ghost use Rattle.search_layers.specs.Words.{TimeGood, TimeWord, time_word, row_of};
ghost use Rattle.search_layers.specs.WordProps.{is_time_word_prop};

use units::{Millis, NodeNo};

// The nodes of a row.
pub const NODES: usize = 64;

// Never as a word, later than every time. Its bytes are not all the same, so that an array of it is filled
// word by word and not byte by byte.
pub const NEVER: u64 = 18_446_744_073_709_551_614;

// Where the word of the node in row k stands.
#[tactic(auto, unfolding(units::specs::Limits::most_nodes))]
fn place(k: usize, node: NodeNo) -> usize
    requires { ((k + 1) * most_nodes < 2 ^ 64) × IsNode node }
    ensures { (result ≡ k * most_nodes + (node.0 - 1)) × (result < (k + 1) * most_nodes) }
{
    k * NODES + (node.0 - 1) as usize
}

// The word of the node in row k.
#[tactic(auto, unfolding(units::specs::Limits::most_nodes))]
pub fn word(words: &[u64], k: usize, node: NodeNo) -> u64
    requires { ((k + 1) * most_nodes ≤ length words.now) × IsNode node }
    ensures { result ≡ get_or (row_of words.now k) (node.0 - 1) 0 }
{
    words[place(k, node)]
}

// When the file is at the node at the earliest, as row k has it.
pub fn get(words: &[u64], k: usize, node: NodeNo) -> Option<Millis>
    requires { ((k + 1) * most_nodes ≤ length words.now) × IsNode node }
    ensures time { result ≡ time_word (get_or (row_of words.now k) (node.0 - 1) 0) }
    ensures good { Each TimeWord words.now → TimeGood result }
{
    let word = word(words, k, node);
    if word == NEVER {
        None
    } else {
        Some(Millis(word))
    }
}

// 64 layers of 64 nodes. A word is a time, or NEVER and not an Option, for fixed memory: an Option is twice
// as long as its time. The words are lent: a struct with the words in it would be copied when it is made.
#[derive(Drop)]
pub struct Layers<'a> {
    pub words: &'a mut [u64],
    pub ghost full: { length words.now ≡ most_nodes * most_nodes },
    pub ghost timed: { Each TimeWord words.now } by { each_prop _ is_time_word_prop _ },
}

impl<'a> Layers<'a> {
    ghost use Rattle.std.specs.Prelude.{set};
    ghost use Rattle.units.specs.Limits.{last_time, most_light};
    ghost use Rattle.search_layers.specs.Layered.{Layered};
    ghost use Rattle.search_layers.specs.Words.{layer_of};

    // The word of the node in row k.
    pub(crate) fn word(&self, k: usize, node: NodeNo) -> u64
        requires { (k < most_nodes) × IsNode node }
        ensures { result ≡ get_or (row_of self.now.words.now k) (node.0 - 1) 0 }
    {
        word(self.words, k, node)
    }

    // When the file is at the node at the earliest, as row k has it.
    pub(crate) fn get(&self, k: usize, node: NodeNo) -> Option<Millis>
        requires { (k < most_nodes) × IsNode node }
        ensures time { result ≡ time_word (get_or (row_of self.now.words.now k) (node.0 - 1) 0) }
        ensures good { TimeGood result }
    {
        get(self.words, k, node)
    }

    // Stores that time for the node in row k.
    #[tactic(auto, unfolding(units::specs::Limits::most_nodes))]
    pub(crate) fn put(&mut self, k: usize, node: NodeNo, time: Millis)
        requires { (k < most_nodes) × IsNode node × (time.0 ≤ last_time + most_light) }
        ensures same_reference { self.new.words.ghost_name ≡ self.old.words.ghost_name }
        ensures stored { self.new.words.now ≡ set self.old.words.now (k * most_nodes + (node.0 - 1)) time.0 }
    {
        let at = place(k, node);
        self.words[at] = time.0;
    }

    // Row k copied into row k + 1.
    #[tactic(auto, unfolding(units::specs::Limits::most_nodes))]
    pub(crate) fn copy_row(&mut self, k: usize)
        requires { k + 1 < most_nodes }
        ensures same_reference { self.new.words.ghost_name ≡ self.old.words.ghost_name }
        ensures copied { Layered self.old self.new k (layer_of self.old.words.now k) }
    {
        let next = (k + 1) * NODES;
        let words = &mut *self.words;
        words.copy_within(k * NODES..next, next);
    }
}
