// The unescape call: the plain text whose escaped form is given.
ghost use Rattle.std.specs.Prelude.{◌≡◌, true, List, ◌++◌, ℕ, ◌≤◌, length, drop};
ghost use Rattle.std.proofs.Math.Option.{some};
ghost use Rattle.rules.specs.Escape.{unescaped};
ghost use Rattle.rules.specs.Answers.{unescape};
ghost use Rattle.entities.specs.Utf8.{calm};
ghost use Rattle.entities.specs.Measured.{length_from, measured, Plainly, Letter, Letters};

use crate::entity::{is_own, plain_at};
use crate::utf8::{between, next};
use rules::Answer;
use stream::answer::{finished, refused};
use stream::copy::copy_into;

// A byte that is a character by itself and its own escaped form.
fn is_letter(b: u8) -> bool
    ensures { result ≡ true → Letter b }
{
    b < 0x80 && is_own(b)
}

// How far there are only such bytes: most of a text goes this way, which has the faster loop. Inside a character there are none.
fn ahead(text: &[u8], from: usize, due: u8) -> usize
    requires { from ≤ length text.now }
    ensures { Letters text.now from due result }
{
    if due != 0 {
        return from;
    }
    for i in from..text.len() {
        if !is_letter(text[i]) {
            return i;
        }
    }
    text.len()
}

// How many bytes the plain text has, if the text is the escaped form of well-formed UTF-8.
fn measure(text: &[u8]) -> Option<usize>
    ensures { measured result ≡ length_from (Some calm) 0 (unescaped text.now) }
{
    let mut u = between();
    let mut n = 0;
    let mut at = 0;
    // Runs and entities go on by as much as they have, so no `for` has these two places.
    loop {
        let here = ahead(text, at, u.due);
        n += here - at;
        at = here;
        if at == text.len() {
            return (u.due == 0).then_some(n);
        }
        let plain = plain_at(text, at)?;
        u = next(u, plain.byte)?;
        at += plain.length;
        n += 1;
    }
}

// The plain text to the beginning of out, which has room for it.
fn put_plain(text: &[u8], out: &mut [u8])
    requires { Plainly text.now (length out.old) }
    ensures { (x : List ℕ) → unescaped text.now ≡ some x → out.new ≡ x ++ drop (length x) out.old }
{
    let mut n = 0;
    let mut at = 0;
    while let Some(plain) = plain_at(text, at) {
        out[n] = plain.byte;
        at += plain.length;
        n += 1;
    }
}

// The same. A plain text that is as long as its escaped form is that form, and is copied.
fn write_plain(text: &[u8], long: usize, out: &mut [u8])
    requires { (Plainly text.now (length out.old)) × ((x : List ℕ) → unescaped text.now ≡ some x → long ≡ length x) }
    ensures { (x : List ℕ) → unescaped text.now ≡ some x → out.new ≡ x ++ drop (length x) out.old }
{
    if long == text.len() {
        copy_into(text, out);
    } else {
        put_plain(text, out);
    }
}

// 8 if the text is the escaped form of no well-formed UTF-8, then 12 if the plain text doesn't fit. Refused, it writes nothing.
pub fn unescape(text: &[u8], out: &mut [u8]) -> Answer
    ensures { (result ≡ (unescape text.now out.old).result) × (out.new ≡ (unescape text.now out.old).output) }
{
    let Some(length) = measure(text) else {
        return refused(8, 0, 0);
    };
    if out.len() < length {
        return refused(12, 0, 0);
    }
    write_plain(text, length, out);
    finished(0, length)
}
