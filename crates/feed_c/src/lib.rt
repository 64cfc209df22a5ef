// The calls for other languages, as include/feed.h declares them: each is that of crate feed. An answer's five numbers are number, stream kind,
// place, steps, bytes.
#![tactic(auto)]

ghost use Rattle.std.specs.Prelude.{◌≡◌, length};
ghost use Rattle.rules.specs.Blocks.{block_payload};
ghost use Rattle.rules.specs.Answers.{check, evaluate, pack, unpack, unescape};
ghost use Rattle.feed.specs.Verdict.{five_of, Left, Filled};

use rules::Answer;

// The five numbers of an answer.
fn put(a: Answer, answer: &mut [u64; 5])
    ensures { answer.new ≡ five_of a }
{
    *answer = [a.number, a.kind, a.place, a.steps, a.bytes];
}

#[unsafe(no_mangle)]
pub extern "C" fn feed_check(g: &[u8], t: &[u8], answer: &mut [u64; 5])
    ensures { answer.new ≡ five_of (check g.now t.now) }
{
    put(feed::check(g, t), answer);
}

#[unsafe(no_mangle)]
pub extern "C" fn feed_evaluate(
    g: &[u8],
    t: &[u8],
    v: &[u8],
    fuel: u32,
    out: &mut [u8],
    scratch: &mut [u16],
    answer: &mut [u64; 5],
)
    ensures { Left answer.new out.new scratch.new (evaluate g.now t.now v.now fuel out.old scratch.old) }
{
    put(feed::evaluate(g, t, v, fuel, out, scratch), answer);
}

#[unsafe(no_mangle)]
pub extern "C" fn feed_pack(kind: u8, payload: &[u8], out: &mut [u8], answer: &mut [u64; 5])
    ensures { Filled answer.new out.new (pack kind payload.now out.old) }
{
    put(feed::pack(kind, payload, out), answer);
}

#[unsafe(no_mangle)]
pub extern "C" fn feed_unpack(kind: u8, stream: &[u8], out: &mut [u8], answer: &mut [u64; 5])
    ensures { Filled answer.new out.new (unpack kind stream.now out.old) }
{
    put(feed::unpack(kind, stream, out), answer);
}

#[unsafe(no_mangle)]
pub extern "C" fn feed_unescape(text: &[u8], out: &mut [u8], answer: &mut [u64; 5])
    ensures { Filled answer.new out.new (unescape text.now out.old) }
{
    put(feed::unescape(text, out), answer);
}

// The payload's length: 504 bytes that begin at byte 4 of the block, or 0. The check starts from `start`.
#[unsafe(no_mangle)]
pub extern "C" fn feed_block_payload(block: &[u8], start: u32) -> usize
    ensures { result ≡ length (block_payload block.now start) }
{
    feed::block_payload(block, start).len()
}
