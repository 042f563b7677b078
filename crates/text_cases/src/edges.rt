// What no text can show: tables with too few rows, tables that are no plan, and output that is too short.
use crate::one::{counts, end, length};
use plan::PlanTables;
use text_read::read;
use text_write::write;

// `read` into tables of which one has a word too few, either way round.
fn few_rows(rt: &impl Print, few: &mut [u64], full: &mut [u64]) {
    counts(rt, read(b"plan\t1\n", few, full));
    end(rt, true);
    counts(rt, read(b"plan\t1\n", full, few));
    end(rt, true);
}

// `write` of a count above 512, of a count above the rows lent, and of the empty plan.
fn written(rt: &impl Print, table: &[u64], out: &mut [u8]) {
    for (contact_count, range_count) in [(513, 0), (0, 512), (0, 0)] {
        let tables = PlanTables {
            contacts: table,
            contact_count,
            ranges: table,
            range_count,
        };
        length(rt, write(tables, out));
        end(rt, true);
    }
}

pub fn all(rt: &impl Print) {
    let mut few = [7u64; 2559];
    let mut full = [7u64; 2560];
    few_rows(rt, &mut few, &mut full);
    let mut short = [0u8; 6];
    written(rt, &few, &mut short);
    let mut enough = [0u8; 7];
    written(rt, &few, &mut enough);
}
