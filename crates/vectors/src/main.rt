// The cases that are run and not proved: a line for each, with its label, and what the call answered and left.
//
// They stand in the file `cases` of the folder that the program is run in; rust/cases makes it. The file is a row of parts, each a head of eight
// 32-bit numbers, lowest byte first, and then bytes. The first number, below 256, says what is done, and what the other seven are:
//
//   1, 2, 3   puts a piece into that stream: where it begins, how many bytes it takes from the file, how long the run after them is, the run's
//             first byte, and the step from each of its bytes to the next, modulo 256; the last two are 0
//   others    a call, by its number in call.rt: the length of its label, below 256, which comes from the file; the number that the call is
//             given; how many bytes it is lent of each of the three streams; how many of output; how many numbers of scratch
//
// The streams keep their bytes from part to part, so what cases share stands in the file once.
#![tactic(auto)]

mod call;
mod part;
mod print;

use part::next_part;
use std::fs::File;
use std::io;
use std::io::Read;

// A proved loop has to end, and nothing says that a file does, so its turns are counted, up to a number that no run uses up.
fn all_parts(rt: &impl Print, file: &mut impl Read) -> io::Result<()> {
    let mut streams = [[0u8; 66048]; 3];
    for _ in 0..u64::MAX {
        if !next_part(rt, file, &mut streams)? {
            break;
        }
    }
    Ok(())
}

fn main(rt: HostRuntime) -> io::Result<()> {
    let mut file = File::open(&rt, "cases")?;
    all_parts(&rt, &mut file)
}
