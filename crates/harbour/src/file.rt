// A file read whole, or as far as there is room.
ghost use Rattle.std.specs.Prelude.{◌≡◌, ◌≤◌, length, take};
ghost use Rattle.std.specs.Io.{ReadsAtMost};

use std::fs::File;
use std::io;
use std::io::{ErrorKind, Read};
use std::rt::Files;

// Puts the file's bytes at the start of buf, as many as fit, and answers how many there are. A file that can't be opened counts as empty, and so
// does one that fails on the way: a part of a stream is no stream.
pub fn read_file(rt: &impl Files, path: &str, buf: &mut [u8]) -> usize
    ensures in_bounds { result ≤ length buf.new }
    ensures taken { result ≡ length (take result buf.new) }
{
    read_start(rt, path, buf).unwrap_or(0)
}

fn read_start(rt: &impl Files, path: &str, buf: &mut [u8]) -> io::Result<usize>
    ensures { ReadsAtMost result buf.new }
{
    let mut file = File::open(rt, path)?;
    read_full(&mut file, buf)
}

// Reads until buf is full or the file ends, and answers how many bytes there are. A read that a signal interrupted brought nothing, and is made
// again. (`vectors` has the same function: a crate for this one alone would be no plainer.)
//
// A proved loop has to end, and nothing says that interruptions do, so its turns are counted, up to a number that no run uses up.
fn read_full(file: &mut impl Read, buf: &mut [u8]) -> io::Result<usize>
    ensures { ReadsAtMost result buf.new }
{
    let mut n = 0;
    for _ in 0..u64::MAX {
        if n >= buf.len() {
            break;
        }
        match file.read(&mut buf[n..]) {
            Ok(0) => break,
            Ok(got) => n += got,
            Err(e) if e.kind() == ErrorKind::Interrupted => {}
            Err(e) => return Err(e),
        }
    }
    Ok(n)
}
