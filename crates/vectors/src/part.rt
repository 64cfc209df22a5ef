// The parts of the file, as main.rt describes them.
ghost use Rattle.std.specs.Prelude.{◌<◌};
ghost use Rattle.std.specs.Io.{ReadsAtMost};

use crate::call::{Lent, make_call};
use std::io;
use std::io::{ErrorKind, Read};

// The three streams.
pub type Streams = [[u8; 66048]; 3];

// The number at a place of a head.
fn number(head: &[u8; 32], place: usize) -> u32
    requires { place < 8 }
{
    let at = 4 * place;
    u32::from_le_bytes([head[at], head[at + 1], head[at + 2], head[at + 3]])
}

// The first n bytes, or as many as there are.
fn front(s: &[u8], n: u32) -> &[u8] {
    s.get(..n as usize).unwrap_or(s)
}

// Fills s with a run.
fn run(s: &mut [u8], first: u8, step: u8) {
    let mut x = first;
    for place in s.iter_mut() {
        *place = x;
        x = x.wrapping_add(step);
    }
}

// Reads until buf is full or the file ends, and answers how many bytes there are. A read that a signal interrupted brought nothing, and is made
// again. (`harbour` has the same function: a crate for this one alone would be no plainer.)
fn read_full(file: &mut impl Read, buf: &mut [u8]) -> io::Result<usize>
    ensures { ReadsAtMost result buf.new }
{
    let mut n = 0;
    for _ in 0..u64::MAX {
        if n >= buf.len() {
            break;
        }
        match file.read(&mut buf[n..]) {
            Ok(0) => break,
            Ok(got) => n += got,
            Err(e) if e.kind() == ErrorKind::Interrupted => {}
            Err(e) => return Err(e),
        }
    }
    Ok(n)
}

// Puts a piece into a stream, if it fits. Of a run's first byte and step the lowest byte counts.
fn put(file: &mut impl Read, head: &[u8; 32], s: &mut [u8]) -> io::Result<()> {
    let at = number(head, 1) as usize;
    let middle = at + number(head, 2) as usize;
    let end = middle + number(head, 3) as usize;
    if end <= s.len() {
        read_full(file, &mut s[at..middle])?;
        run(&mut s[middle..end], head[16], head[20]);
    }
    Ok(())
}

// Prints a case's line: its label, and the call.
fn ask(
    rt: &impl Print,
    file: &mut impl Read,
    head: &[u8; 32],
    streams: &Streams,
) -> io::Result<()> {
    let mut space = [0u8; 256];
    let length = (number(head, 1) % 256) as usize;
    let n = read_full(file, &mut space[..length])?;
    rt.write_all(&space[..n])?;
    print!(rt; " ->")?;
    let lent = Lent {
        first: front(&streams[0], number(head, 3)),
        second: front(&streams[1], number(head, 4)),
        third: front(&streams[2], number(head, 5)),
        number: number(head, 2),
        room: number(head, 6) as usize,
        numbers: number(head, 7) as usize,
    };
    make_call(rt, head[0], &lent)?;
    println!(rt)
}

// Reads a part and does what it says. False where there is no other.
pub fn next_part(rt: &impl Print, file: &mut impl Read, streams: &mut Streams) -> io::Result<bool> {
    let mut head = [0u8; 32];
    if read_full(file, &mut head)? < head.len() {
        return Ok(false);
    }
    match head[0] {
        1..=3 => put(file, &head, &mut streams[head[0] as usize - 1])?,
        _ => ask(rt, file, &head, streams)?,
    }
    Ok(true)
}
