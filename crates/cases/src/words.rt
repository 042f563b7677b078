// The fields of a line: what its first one asks for, and where they stand.
ghost use Rattle.std.specs.Prelude.{◌≤◌, length};

use text_lines::find;

// The byte between two fields.
const TAB: u8 = b'\t';

// A call over the tables.
#[derive(Clone, Copy)]
pub enum Call {
    Valid,
    Light,
    Walk,
    Million,
    Route,
    Places,
}

// What a line begins with.
#[derive(Clone, Copy)]
pub enum Word {
    Text,
    Plan,
    Contact,
    Range,
    Counts,
    Case(Call),
}

// The bytes of a word that count: of its last eight, those behind the NULs that they begin with.
fn counted(word: &[u8]) -> &[u8] {
    let last = &word[word.len().saturating_sub(8)..];
    let nuls = last.iter().take_while(|b| **b == 0).count();
    &last[nuls..]
}

impl Word {
    // The word that a field is, if it is one.
    pub fn of(field: &[u8]) -> Option<Word> {
        match counted(field) {
            b"#" => Some(Word::Text),
            b"plan" => Some(Word::Plan),
            b"contact" => Some(Word::Contact),
            b"range" => Some(Word::Range),
            b"counts" => Some(Word::Counts),
            b"valid" => Some(Word::Case(Call::Valid)),
            b"light" => Some(Word::Case(Call::Light)),
            b"walk" => Some(Word::Case(Call::Walk)),
            b"million" => Some(Word::Case(Call::Million)),
            b"route" => Some(Word::Case(Call::Route)),
            b"places" => Some(Word::Case(Call::Places)),
            _ => None,
        }
    }
}

// Where the field that begins there ends: at its tab, or the line's end.
pub fn field_end(line: &[u8], from: usize) -> usize
    requires { from ≤ length line.now }
    ensures { result ≤ length line.now }
{
    find(line, from, TAB)
}

// How many tabs the bytes have: as many as there are fields behind them.
pub fn fields(bytes: &[u8]) -> usize {
    bytes.iter().filter(|b| **b == TAB).count()
}
