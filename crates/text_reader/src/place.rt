// The reader: it stands at a place in the text that it was lent, and goes on from line to line.
ghost use Rattle.std.specs.Prelude.{List, ℕ, ◌≡◌, ◌<◌, drop, ltb, length};
ghost use Rattle.text_reader.specs.Places.{body_of, first_said, behind_first};

use std::marker::Model;
use text::Line;
use text_lines::{find, said_by};

// The byte that ends a line.
const LINE_FEED: u8 = b'\n';
// How long the header is, with its line feed.
const HEADER: usize = 7;

// A place in a text. A contract sees the bytes that are left from there on.
#[derive(Drop)]
pub struct Reader<'a> {
    text: &'a [u8],
    at: usize,
}

impl<'a> Model for Reader<'a> {
    ghost Value = { List ℕ };

    ghost view = { λ r. drop r.at r.text.now };
}

impl<'a> Reader<'a> {
    // A reader at the first line behind the header.
    pub fn behind_header(text: &'a [u8]) -> Self
        ensures { result ≡ body_of text.now }
    {
        Reader { text, at: HEADER }
    }

    // Whether a line is left.
    pub fn has_line(&self) -> bool
        ensures { result ≡ ltb 0 (length self.now) }
    {
        self.at < self.text.len()
    }

    // What the next line says, or nothing if no line feed ends it. The reader then stands behind the line.
    pub fn next_line(&mut self) -> Option<Line>
        requires { 0 < length self.old }
        ensures says { result ≡ first_said self.old }
        ensures left { self.new ≡ behind_first self.old }
    {
        let start = self.at;
        self.at = find(self.text, start, LINE_FEED) + 1;
        if self.text.len() < self.at {
            return None;
        }
        said_by(&self.text[start..self.at - 1])
    }
}
