// The paper's program: evaluates grammar.blk, template.blk and value.blk of the folder that it is run in, and writes one line of the answer's
// five fields, then the text if it is finished, with no newline after it.
#![tactic(auto)]

mod file;
mod print;

use file::read_file;
use print::print_answer;
use std::io;

const FUEL: u32 = 1000000;

// Each stream has room for one byte more than is legal: a longer file is then seen to be too long, and no more of it is read.
fn main(rt: HostRuntime) -> io::Result<()> {
    let mut grammar = [0u8; 65537];
    let mut templates = [0u8; 65537];
    let mut value = [0u8; 65537];
    let mut out = [0u8; 65536];
    let mut scratch = [0u16; 4800];
    let g = read_file(&rt, "grammar.blk", &mut grammar);
    let t = read_file(&rt, "template.blk", &mut templates);
    let v = read_file(&rt, "value.blk", &mut value);
    let answer = feed::evaluate(
        &grammar[..g],
        &templates[..t],
        &value[..v],
        FUEL,
        &mut out,
        &mut scratch,
    );
    print_answer(&rt, answer, &out)
}
