// Starts. 01, 'Numbers returned', 1: the table of kinds wrong or N outside 2 to 32, or row and table of different lengths.
// 'A refused start leaves the row as lent and returns a head of zeros.' The start stamp is 7.
// Prints `T`, the case, the answer, the head (events taken, last stamp), whether the records are as lent, whether they are valid now.
use crate::row;
use lent::array::{Kept, ROOM};
use std::fmt::{Result, Write};

// A start of the first `n` records of the room from the table; all are compared, those past the row too.
fn case<W: Write>(output: &mut W, name: &str, n: usize, kinds: &[u32]) -> Result {
    let before = [row::LITTER; ROOM];
    let Kept { told, posts } = lent::array::start_on(before, n, kinds, 7);
    let (taken, last) = (told.head.taken, told.head.last);
    let same = u8::from(posts == before);
    let valid = u8::from(lent::array::valid_on(posts, n, told.head));
    writeln!(
        output,
        "T {name} {} {taken} {last} {same} {valid}",
        told.answer
    )
}

pub fn run<W: Write>(output: &mut W) -> Result {
    // 1 0 0 1 0, as all but the last: 2 to 32 posts
    case(output, "empty", 0, &[])?;
    case(output, "one", 1, &[0])?;
    case(output, "long", 33, &row::intermediate::<33>())?;
    // 'Post 0 has kind 0'
    case(output, "first", 3, &[2, 4, 1])?;
    // 'the last has kind 1'
    case(output, "last", 3, &[0, 4, 4])?;
    // 'all others have 2, 3 or 4': a kind that there is not, and the origin's
    case(output, "middle", 3, &[0, 5, 1])?;
    case(output, "origin", 3, &[0, 0, 1])?;
    // row and table of different lengths
    case(output, "fewer", 2, &[0, 4, 1])?;
    case(output, "more", 4, &[0, 4, 1])?;
    // 0 0 7 0 1: 'events taken 0, last stamp as given', and a fresh line is valid
    case(output, "whole", 32, &row::intermediate::<32>())
}
