// The two tables of a plan.
ghost use Rattle.std.specs.Prelude.{◌≤◌, length};

use crate::show::bad;
use crate::words::fields;
use plan::{PlanTables, WORDS};
use text_lines::numbers;

// The words of a table: a row more than a plan can have.
const MOST_WORDS: usize = 2565;

// A table: its words, how many of them are put, and how many rows count.
#[derive(Drop)]
pub struct Table {
    words: [u64; MOST_WORDS],
    put: usize,
    rows: usize,
    ghost within: { put ≤ 2565 },
}

// The tables of the contacts and of the ranges.
#[derive(Drop)]
pub struct Tables {
    pub contacts: Table,
    pub ranges: Table,
}

impl Table {
    // A table with no words.
    pub fn empty() -> Table {
        Table {
            words: [0; MOST_WORDS],
            put: 0,
            rows: 0,
        }
    }

    // The words go.
    fn clear(&mut self) {
        self.put = 0;
        self.rows = 0;
    }

    // The numbers behind the tab at `from` are put behind the words, of which the whole rows count then. Where
    // there are more than the table has room for, they are not read.
    pub fn put(&mut self, rt: &impl Print, line: &[u8], from: usize)
        requires { from ≤ length line.now }
    {
        let start = self.put;
        let end = start + fields(&line[from..]).min(MOST_WORDS - start);
        if numbers(line, from, &mut self.words[start..end]) {
            self.put = end;
        } else {
            bad(rt);
        }
        self.rows = self.put / WORDS;
    }
}

impl Tables {
    // Tables with no words.
    pub fn empty() -> Tables {
        Tables {
            contacts: Table::empty(),
            ranges: Table::empty(),
        }
    }

    // Both tables are emptied.
    pub fn clear(&mut self) {
        self.contacts.clear();
        self.ranges.clear();
    }

    // So many rows count as the two numbers behind the tab at `from` say.
    pub fn count(&mut self, rt: &impl Print, line: &[u8], from: usize)
        requires { from ≤ length line.now }
    {
        let mut counts = [0u64; 2];
        if numbers(line, from, &mut counts) {
            self.contacts.rows = counts[0] as usize;
            self.ranges.rows = counts[1] as usize;
        } else {
            bad(rt);
        }
    }

    // The tables as a call is lent them: the words that were put, and no more.
    pub fn lent(&self) -> PlanTables<'_> {
        PlanTables {
            contacts: &self.contacts.words[..self.contacts.put],
            contact_count: self.contacts.rows,
            ranges: &self.ranges.words[..self.ranges.put],
            range_count: self.ranges.rows,
        }
    }
}
