// The calls, and what is printed of each behind the arrow.
use crate::print::{fields, hash};
use rules::Answer;
use std::io;

// The bytes of the output and the numbers of the scratch before a call.
const BYTE: u8 = 165;

const NUMBER: u16 = 23130;

// The calls, in the order of their numbers in the file.
#[derive(Clone, Copy, Debug, PartialEq, Eq)]
enum Call {
    Fnv1a,
    BlockPayload,
    Pack,
    Unpack,
    Evaluate,
    Unescape,
}

// A number that is no call's.
#[derive(Clone, Copy, Debug, PartialEq, Eq)]
struct NoCall(u8);

impl TryFrom<u8> for Call {
    type Error = NoCall;

    fn try_from(number: u8) -> Result<Self, NoCall> {
        match number {
            10 => Ok(Call::Fnv1a),
            11 => Ok(Call::BlockPayload),
            12 => Ok(Call::Pack),
            13 => Ok(Call::Unpack),
            14 => Ok(Call::Evaluate),
            15 => Ok(Call::Unescape),
            _ => Err(NoCall(number)),
        }
    }
}

// What a call is given: of each stream as many bytes as it is lent, a number (the fuel, the kind, the start of a check), and the lengths of output
// and scratch.
#[derive(Clone, Copy)]
pub struct Lent<'a> {
    pub first: &'a [u8],
    pub second: &'a [u8],
    pub third: &'a [u8],
    pub number: u32,
    pub room: usize,
    pub numbers: usize,
}

// The call of a number on as many of the three streams as it takes.
pub fn make_call(rt: &impl Print, number: u8, lent: &Lent) -> io::Result<()> {
    let mut out = [BYTE; 66048];
    let mut scratch = [NUMBER; 8192];
    if lent.room > out.len() || lent.numbers > scratch.len() {
        return Ok(());
    }
    let Ok(call) = Call::try_from(number) else {
        return print!(rt; " no call");
    };
    dispatch(
        rt,
        call,
        lent,
        &mut out[..lent.room],
        &mut scratch[..lent.numbers],
    )
}

// It prints what was answered and left.
fn dispatch(
    rt: &impl Print,
    call: Call,
    lent: &Lent,
    out: &mut [u8],
    scratch: &mut [u16],
) -> io::Result<()> {
    let kind = (lent.number % 256) as u8;
    match call {
        Call::Fnv1a => hash(rt, " ", lent.first),
        Call::BlockPayload => block_payload(rt, lent.first, lent.number),
        Call::Pack => written(rt, feed::pack(kind, lent.first, out), out),
        Call::Unpack => written(rt, feed::unpack(kind, lent.first, out), out),
        Call::Evaluate => evaluate(rt, lent, out, scratch),
        Call::Unescape => written(rt, feed::unescape(lent.first, out), out),
    }
}

// The length of what is handed back, and its bytes.
fn block_payload(rt: &impl Print, block: &[u8], start: u32) -> io::Result<()> {
    let payload = feed::block_payload(block, start);
    print!(rt; " {}", payload.len())?;
    hash(rt, "  bytes-fnv=", payload)
}

// The five fields, and the bytes that they count.
fn written(rt: &impl Print, a: Answer, out: &[u8]) -> io::Result<()> {
    fields(rt, a)?;
    if let Some(bytes) = out.get(..a.bytes as usize) {
        hash(rt, "  bytes-fnv=", bytes)?;
    }
    Ok(())
}

// Whether the output behind the bytes that are counted is as it was.
fn rest(rt: &impl Print, a: Answer, out: &[u8]) -> io::Result<()> {
    let n = a.bytes as usize;
    let kept = n <= out.len() && out[n..].iter().all(|x| *x == BYTE);
    let left = if kept { "kept" } else { "changed" };
    print!(rt; "  rest {left}")
}

fn scratched(rt: &impl Print, scratch: &[u16]) -> io::Result<()> {
    let left = if scratch.iter().all(|x| *x == NUMBER) {
        "kept"
    } else if scratch.iter().all(|x| *x == 0) {
        "zero"
    } else {
        "changed"
    };
    print!(rt; "  scratch {left}")
}

// The evaluate call, and then the check call on the same set.
fn evaluate(rt: &impl Print, lent: &Lent, out: &mut [u8], scratch: &mut [u16]) -> io::Result<()> {
    let (g, t) = (lent.first, lent.second);
    let a = feed::evaluate(g, t, lent.third, lent.number, out, scratch);
    written(rt, a, out)?;
    rest(rt, a, out)?;
    scratched(rt, scratch)?;
    print!(rt; "  check ->")?;
    fields(rt, feed::check(g, t))
}
