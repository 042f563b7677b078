// The functions of `board` as a static archive for C: each calls the one of its name and says its clauses
// again. include/oivarnum.h declares them for C.

#![tactic(auto)]

ghost use Rattle.board_face.specs.Asked.{asked};
ghost use Rattle.board.specs.Booked.{BoardBooks, BoardReleases, BoardRoutesBooked, BoardWalksBooked};
ghost use Rattle.board.specs.Faces.{BoardReads, BoardRoutes, BoardWalks, BoardWrites};

// Reads the plan that the text is into the lent tables.
#[unsafe(no_mangle)]
pub extern "C" fn oivarnum_read(
    text: &[u8],
    contacts: &mut [u64],
    ranges: &mut [u64],
    answer: &mut [u64],
) -> u64
    ensures { BoardReads text.now contacts.old ranges.old answer.old result contacts.new ranges.new answer.new }
{
    board::oivarnum_read(text, contacts, ranges, answer)
}

// Writes the text of the plan that the tables hold.
#[unsafe(no_mangle)]
pub extern "C" fn oivarnum_write(
    contacts: &[u64],
    contact_count: usize,
    ranges: &[u64],
    range_count: usize,
    out: &mut [u8],
    answer: &mut [u64],
) -> u64
    ensures { BoardWrites contacts.now contact_count ranges.now range_count out.old answer.old result out.new answer.new }
{
    board::oivarnum_write(contacts, contact_count, ranges, range_count, out, answer)
}

// Times the chain given for the ask that the six numbers are.
#[unsafe(no_mangle)]
pub extern "C" fn oivarnum_walk(
    contacts: &[u64],
    contact_count: usize,
    ranges: &[u64],
    range_count: usize,
    source: u64,
    destination: u64,
    time: u64,
    size: u64,
    deadline: u64,
    excluded: u64,
    chain: &[u64],
    answer: &mut [u64],
) -> u64
    ensures { BoardWalks contacts.now contact_count ranges.now range_count (asked source destination time size deadline excluded) chain.now answer.old result answer.new }
{
    board::oivarnum_walk(
        contacts,
        contact_count,
        ranges,
        range_count,
        source,
        destination,
        time,
        size,
        deadline,
        excluded,
        chain,
        answer,
    )
}

// Finds the best chain for the ask that the six numbers are.
#[unsafe(no_mangle)]
pub extern "C" fn oivarnum_route(
    contacts: &[u64],
    contact_count: usize,
    ranges: &[u64],
    range_count: usize,
    source: u64,
    destination: u64,
    time: u64,
    size: u64,
    deadline: u64,
    excluded: u64,
    chain: &mut [u64],
    answer: &mut [u64],
) -> u64
    ensures { BoardRoutes contacts.now contact_count ranges.now range_count (asked source destination time size deadline excluded) chain.old answer.old result chain.new answer.new }
{
    board::oivarnum_route(
        contacts,
        contact_count,
        ranges,
        range_count,
        source,
        destination,
        time,
        size,
        deadline,
        excluded,
        chain,
        answer,
    )
}

// Times the chain given for the ask that the six numbers are, of that class, over the plan with its book.
#[unsafe(no_mangle)]
pub extern "C" fn oivarnum_walk_booked(
    contacts: &[u64],
    contact_count: usize,
    ranges: &[u64],
    range_count: usize,
    book: &[u64],
    booked: &[u16],
    source: u64,
    destination: u64,
    time: u64,
    size: u64,
    deadline: u64,
    excluded: u64,
    class: u64,
    chain: &[u64],
    answer: &mut [u64],
) -> u64
    ensures { BoardWalksBooked contacts.now contact_count ranges.now range_count book.now booked.now (asked source destination time size deadline excluded) class chain.now answer.old result answer.new }
{
    board::oivarnum_walk_booked(
        contacts,
        contact_count,
        ranges,
        range_count,
        book,
        booked,
        source,
        destination,
        time,
        size,
        deadline,
        excluded,
        class,
        chain,
        answer,
    )
}

// Finds the best chain for the ask that the six numbers are, of that class, over the plan with its book.
#[unsafe(no_mangle)]
pub extern "C" fn oivarnum_route_booked(
    contacts: &[u64],
    contact_count: usize,
    ranges: &[u64],
    range_count: usize,
    book: &[u64],
    booked: &[u16],
    source: u64,
    destination: u64,
    time: u64,
    size: u64,
    deadline: u64,
    excluded: u64,
    class: u64,
    chain: &mut [u64],
    answer: &mut [u64],
) -> u64
    ensures { BoardRoutesBooked contacts.now contact_count ranges.now range_count book.now booked.now (asked source destination time size deadline excluded) class chain.old answer.old result chain.new answer.new }
{
    board::oivarnum_route_booked(
        contacts,
        contact_count,
        ranges,
        range_count,
        book,
        booked,
        source,
        destination,
        time,
        size,
        deadline,
        excluded,
        class,
        chain,
        answer,
    )
}

// Finds the best chain for the ask that the six numbers are, of that class, over the plan with its book, and
// books it in the lowest free place.
#[unsafe(no_mangle)]
pub extern "C" fn oivarnum_book_route(
    contacts: &[u64],
    contact_count: usize,
    ranges: &[u64],
    range_count: usize,
    book: &mut [u64],
    booked: &mut [u16],
    source: u64,
    destination: u64,
    time: u64,
    size: u64,
    deadline: u64,
    excluded: u64,
    class: u64,
    chain: &mut [u64],
    answer: &mut [u64],
) -> u64
    ensures { BoardBooks contacts.now contact_count ranges.now range_count book.old booked.old (asked source destination time size deadline excluded) class chain.old answer.old result book.new booked.new chain.new answer.new }
{
    board::oivarnum_book_route(
        contacts,
        contact_count,
        ranges,
        range_count,
        book,
        booked,
        source,
        destination,
        time,
        size,
        deadline,
        excluded,
        class,
        chain,
        answer,
    )
}

// Frees the place of that number, counted from 1, where it is open.
#[unsafe(no_mangle)]
pub extern "C" fn oivarnum_release(
    contacts: &[u64],
    contact_count: usize,
    ranges: &[u64],
    range_count: usize,
    book: &mut [u64],
    booked: &[u16],
    place: u64,
    answer: &mut [u64],
) -> u64
    ensures { BoardReleases contacts.now contact_count ranges.now range_count book.old booked.now place answer.old result book.new answer.new }
{
    board::oivarnum_release(
        contacts,
        contact_count,
        ranges,
        range_count,
        book,
        booked,
        place,
        answer,
    )
}
