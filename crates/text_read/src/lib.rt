// A plan text read into lent tables. The public call is `read`; what it promises stands in the specs/ of
// `text`.

#![tactic(auto)]

mod reader;

pub use reader::read;
