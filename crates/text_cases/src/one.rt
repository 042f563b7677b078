// One text: what `read` answers, whether the lent words after the rows stayed, and whether `write` gives
// the bytes back.
use plan::PlanTables;
use text::Counts;
use text_read::read;
use text_write::write;
use units::Refusal;

// What the tables hold before the call.
const BLANK: u64 = 7;

// Whether the table's words from row n on are blank.
fn is_kept(table: &[u64], n: usize) -> bool {
    if 512 < n {
        return false;
    }
    table.iter().skip(n * 5).all(|word| *word == BLANK)
}

// Prints the bytes. A write that fails is dropped.
fn print(rt: &impl Print, bytes: &[u8]) {
    let _ = rt.write_all(bytes);
}

fn field(rt: &impl Print, n: u64) {
    let _ = print!(rt; "\t{n}");
}

// The line's end, after a word where lent memory changed that must not.
pub fn end(rt: &impl Print, kept: bool) {
    if !kept {
        print(rt, b"\tchanged");
    }
    print(rt, b"\n");
}

fn refused(rt: &impl Print, why: Refusal) {
    print(rt, b"refused");
    field(rt, units::number(why));
    field(rt, units::place(why));
}

// The text written back into `out`: its length, where the bytes are the same.
fn back_into(rt: &impl Print, text: &[u8], tables: PlanTables, out: &mut [u8]) {
    match write(tables, out) {
        Ok(k) => {
            if out.get(..k).is_some_and(|bytes| bytes == text) {
                field(rt, k as u64);
            }
        }
        Err(why) => refused(rt, why),
    }
}

fn back(rt: &impl Print, text: &[u8], tables: PlanTables) {
    let mut out = [0u8; 46_088];
    back_into(rt, text, tables, &mut out);
}

// The two counts, or the refusal.
pub fn counts(rt: &impl Print, answer: Result<Counts, Refusal>) {
    match answer {
        Ok(counts) => {
            print(rt, b"plan");
            field(rt, counts.contacts as u64);
            field(rt, counts.ranges as u64);
        }
        Err(why) => refused(rt, why),
    }
}

// The length, or the refusal.
pub fn length(rt: &impl Print, answer: Result<usize, Refusal>) {
    match answer {
        Ok(k) => {
            print(rt, b"written");
            field(rt, k as u64);
        }
        Err(why) => refused(rt, why),
    }
}

fn show(
    rt: &impl Print,
    text: &[u8],
    answer: Result<Counts, Refusal>,
    contacts: &[u64],
    ranges: &[u64],
) {
    counts(rt, answer);
    let mut filled = Counts {
        contacts: 0,
        ranges: 0,
    };
    if let Ok(read) = answer {
        let tables = PlanTables {
            contacts,
            contact_count: read.contacts,
            ranges,
            range_count: read.ranges,
        };
        back(rt, text, tables);
        filled = read;
    }
    let kept = is_kept(contacts, filled.contacts) & is_kept(ranges, filled.ranges);
    end(rt, kept);
}

pub fn judge(rt: &impl Print, text: &[u8]) {
    let mut contacts = [BLANK; 2560];
    let mut ranges = [BLANK; 2560];
    let answer = read(text, &mut contacts, &mut ranges);
    show(rt, text, answer, &contacts, &ranges);
}
