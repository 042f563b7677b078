// How an answer is printed, and its line ended.
use search::Best;
use units::{Millis, Refusal, number, place};
use walk::Figures;

// Prints the bytes. A write that fails is dropped.
pub fn print(rt: &impl Print, bytes: &[u8]) {
    let _ = rt.write_all(bytes);
}

// A line that is not understood.
pub fn bad(rt: &impl Print) {
    print(rt, b"\tbad line\n");
}

// A tab and a number.
fn field(rt: &impl Print, n: u64) {
    let _ = print!(rt; "\t{n}");
}

// The first `count` numbers.
fn fields(rt: &impl Print, numbers: &[u64], count: usize) {
    for n in numbers.iter().take(count) {
        field(rt, *n);
    }
}

fn figures(rt: &impl Print, f: Figures) {
    field(rt, f.delivery.0);
    field(rt, f.opens.0);
    field(rt, f.last_call.0);
    field(rt, f.room);
}

fn refused(rt: &impl Print, why: Refusal) {
    print(rt, b"\trefused");
    field(rt, number(why));
    field(rt, place(why));
}

// What the test of a plan said.
pub fn verdict(rt: &impl Print, is_plan: bool) {
    if is_plan {
        print(rt, b"\tplan\n");
    } else {
        print(rt, b"\tno plan\n");
    }
}

// A light time, or that there is none.
pub fn light(rt: &impl Print, answer: Option<Millis>) {
    match answer {
        Some(light) => field(rt, light.0),
        None => print(rt, b"\tunranged"),
    }
    print(rt, b"\n");
}

// The four figures, or the number and the place.
pub fn walked(rt: &impl Print, answer: Result<Figures, Refusal>) {
    match answer {
        Ok(f) => figures(rt, f),
        Err(why) => refused(rt, why),
    }
    print(rt, b"\n");
}

// A line with every place of a lent chain.
fn places(rt: &impl Print, chain: &[u64]) {
    print(rt, b"places");
    fields(rt, chain, chain.len());
    print(rt, b"\n");
}

// The figures, the count and the chain, or the number and the place; and the places, where they are shown.
pub fn routed(rt: &impl Print, answer: Result<Best, Refusal>, chain: &[u64], shown: bool) {
    match answer {
        Ok(best) => {
            print(rt, b"\troute");
            figures(rt, best.figures);
            field(rt, best.count as u64);
            fields(rt, chain, best.count);
        }
        Err(why) => refused(rt, why),
    }
    print(rt, b"\n");
    if shown {
        places(rt, chain);
    }
}
