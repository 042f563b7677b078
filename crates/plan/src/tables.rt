// The two tables of a plan.

// The tables of a plan as they are lent, of which nothing is known yet: a slice of words and how many
// rows of it are used, for the contacts and for the ranges. A caller in C lends tables of 512 rows.
#[derive(Clone, Copy)]
pub struct PlanTables<'a> {
    pub contacts: &'a [u64],
    pub contact_count: usize,
    pub ranges: &'a [u64],
    pub range_count: usize,
}
