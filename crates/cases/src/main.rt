// Cases of the library's calls, from standard input. Each is answered by a line: its own first two fields, and what
// the call says. Tabs part the fields of a line; an ask is six numbers, as in an ask's line.
//
//     # TEXT                     nothing
//     plan                       both tables are emptied
//     contact NUMBERS            put behind the words of the contacts, of which the whole rows count then
//     range NUMBERS              the same of the ranges
//     counts CONTACTS RANGES     so many rows count
//     valid NAME                 whether the tables are a plan
//     light NAME CONTACT         the light time of a contact
//     walk NAME ASK CONTACTS     the figures of that chain
//     million NAME ASK           those of a chain of a million contacts: 1 and 2 in turn, and 3 at the end
//     route NAME ASK PLACES      the best chain, where so many places are lent
//     places NAME ASK PLACES     the same, and a line with every place afterwards
//
// A call is lent the words that were put, and no more. What is no such line is answered by `bad line`. The same lines
// are answered by second/src/bin/cases.rs.

#![tactic(auto)]

mod answering;
mod chains;
mod input;
mod show;
mod step;
mod tables;
mod words;

fn main(rt: HostRuntime) {
    input::all(&rt);
}
