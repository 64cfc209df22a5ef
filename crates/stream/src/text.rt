// The reader of text. The bytes of a text lie in the payloads of blocks in a row; they are handed on block by block, as parts of the stream.
ghost use Rattle.std.specs.Prelude.{◌≡◌, ◌+◌, ◌*◌, min, ◌≤◌, ◌<◌, ◌^◌, length};
ghost use Rattle.rules.specs.Records.{text_of};
ghost use Rattle.std.specs.Iterator.{at_most};
ghost use Rattle.stream.specs.Text.{text_in, Begins, room, part_of, Rest, Skips, Copied};
ghost use Rattle.stream.specs.Parts.{GivesPart};

use crate::Stream;
use crate::copy::copy_into;
use crate::record::{NEAR, address, block_of};

// A text, or what is left of one: the address of its first byte, and the number of its bytes.
#[derive(Clone, Copy)]
pub struct Text {
    pub at: usize,
    pub left: usize,
}

impl Stream<'_> {
    // The text of n bytes after the head at record i. A head past the end of the stream has none: its text would lie past the end as well, and of
    // what lies there `text_part` hands out nothing.
    pub fn text_after(&self, i: usize, n: usize) -> Text
        ensures { Begins self.now (text_of self.now n i) n result }
    {
        let _ = &self.bytes;
        if NEAR <= i {
            return Text { at: 0, left: 0 };
        }
        let first = i + 1;
        Text {
            at: address(first, block_of(first)),
            left: n,
        }
    }
}

// How many bytes of payload a block has from an address on.
fn room_at(at: usize) -> usize
    requires { at < 2 ^ 63 }
    ensures { result ≡ room at }
{
    512 - (at + 4) % 512
}

// The part of a text that stands in the block of its first byte.
pub fn text_part(s: &[u8], t: Text) -> &[u8]
    ensures { result.now ≡ part_of s.now t }
{
    let at = t.at;
    if s.len() <= at {
        return &s[0..0];
    }
    let end = (at + t.left.min(room_at(at))).min(s.len());
    &s[at..end]
}

// The text after that part. It goes on behind the block's check and the head of the next block.
pub fn text_rest(s: &[u8], t: Text) -> Text
    ensures { Rest s.now t result }
{
    let at = t.at;
    if s.len() <= at {
        return Text { at, left: 0 };
    }
    let here = room_at(at);
    if t.left <= here {
        return Text { at, left: 0 };
    }
    Text {
        at: at + here + 8,
        left: t.left - here,
    }
}

// The parts of a text in their order, block by block: what a loop over a text goes by. The bytes of all of them are the text's.
#[derive(Drop)]
pub struct Parts<'a> {
    pub stream: &'a [u8],
    pub rest: Text,
}

pub fn parts_of(s: &[u8], t: Text) -> Parts<'_>
    ensures { (result.stream.now ≡ s.now) × (result.rest ≡ t) }
{
    Parts { stream: s, rest: t }
}

impl<'a> Iterator for Parts<'a> {
    type Item = &'a [u8];

    ghost next_gives = { GivesPart };

    ghost remaining = { λ p. at_most p.rest.left };

    fn next(&mut self) -> Option<&'a [u8]> {
        if self.rest.left == 0 {
            return None;
        }
        let part = text_part(self.stream, self.rest);
        self.rest = text_rest(self.stream, self.rest);
        Some(part)
    }
}

// The text after its first byte.
fn text_next(t: Text) -> Text
    requires { (0 < t.left) × (t.at + 9 < 2 ^ 64) }
    ensures { Skips 1 t result }
{
    if t.at % 512 == 507 {
        return Text {
            at: t.at + 9,
            left: t.left - 1,
        };
    }
    Text {
        at: t.at + 1,
        left: t.left - 1,
    }
}

// The text after its first n bytes.
pub fn text_skip(t: Text, n: usize) -> Text
    requires { (n ≤ t.left) × (t.at + 9 * n < 2 ^ 64) }
    ensures { Skips n t result }
{
    let mut rest = t;
    for _ in 0..n {
        rest = text_next(rest);
    }
    rest
}

// How many bytes of a text the stream has: a text that runs past its end is cut short. The pattern of a scan: the state after a part is the
// start of the next.
pub fn text_len(s: &[u8], t: Text) -> usize
    ensures { result ≡ length (text_in s.now t) }
{
    let mut n = 0;
    for part in parts_of(s, t) {
        n += part.len();
    }
    n
}

// A text that fits, part by part.
fn copy_parts(s: &[u8], t: Text, out: &mut [u8]) -> usize
    requires { length (text_in s.now t) ≤ length out.old }
    ensures { Copied (text_in s.now t) out.old out.new result }
{
    let mut done = 0;
    for part in parts_of(s, t) {
        copy_into(part, &mut out[done..]);
        done += part.len();
    }
    done
}

// A text to the beginning of out: whole or not at all. The answer is its length, whether it fits or not. Its bytes are counted
// beforehand only where it may not fit.
pub fn copy_text(s: &[u8], t: Text, out: &mut [u8]) -> usize
    ensures { Copied (text_in s.now t) out.old out.new result }
{
    if out.len() < t.left {
        let n = text_len(s, t);
        if out.len() < n {
            return n;
        }
    }
    copy_parts(s, t, out)
}
