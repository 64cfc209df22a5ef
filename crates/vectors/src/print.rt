// What is printed of an answer, and of bytes.
use rules::Answer;
use std::io;
use stream::fnv::{START, fnv1a};

// FNV-1a of some bytes after a label.
pub fn hash(rt: &impl Print, label: &str, s: &[u8]) -> io::Result<()> {
    print!(rt; "{label}{:08x}", fnv1a(START, s))
}

// The five fields of an answer.
pub fn fields(rt: &impl Print, a: Answer) -> io::Result<()> {
    print!(rt;
        " {} {} {} {} {}",
        a.number, a.kind, a.place, a.steps, a.bytes
    )
}
