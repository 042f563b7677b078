// Reading an input into lent bytes, for the programs.

#![tactic(auto)]

ghost use Rattle.std.specs.Counts.{IsPrefixLen};

use std::io::Read;

// Reads until `buf` is full or the reader is at its end: how many bytes it put at the start of `buf`. A read
// that fails counts as the end, and one may put fewer bytes than there is room for, so that they are counted
// here and not by a `for`.
pub fn read_full(from: &mut impl Read, buf: &mut [u8]) -> usize
    ensures { IsPrefixLen result buf.new }
{
    let mut done = 0;
    while done < buf.len() {
        let n = from.read(&mut buf[done..]).unwrap_or(0);
        if n == 0 {
            break;
        }
        done += n;
    }
    done
}
