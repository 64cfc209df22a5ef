// The escaped form of a text, written where the text is copied.
ghost use Rattle.std.specs.Prelude.{◌≡◌, true, ◌&&◌, ◌≤◌, length, fold};
ghost use Rattle.rules.specs.Escape.{entity, escape};
ghost use Rattle.stream.specs.Text.{text_in, Copied};
ghost use Rattle.entities.specs.Entity.{own};
ghost use Rattle.entities.specs.Put.{Put};

use crate::entity::{LONGEST, entity_of, is_own};
use stream::copy::copy_into;
use stream::text::{Text, parts_of};

// Whether a part has no byte of the five.
fn is_own_form_part(part: &[u8]) -> bool
    ensures { result ≡ fold (λ o b. o && own b) true part.now }
{
    // `all` would be plainer, but stops at the first of the five: without that the compiler holds many bytes against the five at once.
    part.iter().fold(true, |own, b| own & is_own(*b))
}

// Whether a text has no byte of the five, so that it is its own escaped form. (A wrong "no" would only cost time, so nothing is promised of it.)
pub fn is_own_form(s: &[u8], t: Text) -> bool
    ensures { result ≡ true → escape (text_in s.now t) ≡ text_in s.now t }
{
    for part in parts_of(s, t) {
        if !is_own_form_part(part) {
            return false;
        }
    }
    true
}

// How many bytes the escaped form of a byte has.
fn byte_len(b: u8) -> usize
    ensures { result ≡ length (entity b) }
{
    match entity_of(b) {
        Some(entity) => entity.len(),
        None => 1,
    }
}

// How many bytes the escaped form of a part has.
fn part_len(part: &[u8]) -> usize
    requires { length part.now ≤ 65535 }
    ensures { result ≡ length (escape part.now) }
{
    let mut n = 0;
    for b in part {
        n += byte_len(*b);
    }
    n
}

// How many bytes the escaped form of a text has.
fn escaped_len(s: &[u8], t: Text) -> usize
    requires { t.left ≤ 65535 }
    ensures { result ≡ length (escape (text_in s.now t)) }
{
    let mut n = 0;
    for part in parts_of(s, t) {
        n += part_len(part);
    }
    n
}

// An entity at the beginning of out.
fn lay(entity: &[u8], out: &mut [u8]) -> usize
    requires { length entity.now ≤ length out.old }
    ensures { Put entity.now out.old out.new result }
{
    copy_into(entity, out);
    entity.len()
}

// The escaped form of a byte at the beginning of out. (The five once more, and not by `entity_of`: what has a length that is known here is copied
// by a store or two, and a text of quotes took 1.7 times as long.)
#[tactic(auto, unfolding(rules::specs::Escape::entity))]
fn put(b: u8, out: &mut [u8]) -> usize
    requires { length (entity b) ≤ length out.old }
    ensures { Put (entity b) out.old out.new result }
{
    match b {
        b'&' => lay(b"&amp;", out),
        b'<' => lay(b"&lt;", out),
        b'>' => lay(b"&gt;", out),
        b'"' => lay(b"&quot;", out),
        b'\'' => lay(b"&apos;", out),
        _ => {
            out[0] = b;
            1
        }
    }
}

// The escaped form of a part, which fits, at the beginning of out.
fn escape_part(part: &[u8], out: &mut [u8]) -> usize
    requires { length (escape part.now) ≤ length out.old }
    ensures { Put (escape part.now) out.old out.new result }
{
    let mut done = 0;
    for b in part {
        done += put(*b, &mut out[done..]);
    }
    done
}

// The escaped form of a text, which fits, part by part.
fn escape_parts(s: &[u8], t: Text, out: &mut [u8]) -> usize
    requires { length (escape (text_in s.now t)) ≤ length out.old }
    ensures { Put (escape (text_in s.now t)) out.old out.new result }
{
    let mut done = 0;
    for part in parts_of(s, t) {
        done += escape_part(part, &mut out[done..]);
    }
    done
}

// The escaped form of a text to the beginning of out: whole or not at all. The answer is its length, whether it fits or not. It is
// measured beforehand only where it may not fit.
pub fn copy_escaped(s: &[u8], t: Text, out: &mut [u8]) -> usize
    requires { t.left ≤ 65535 }
    ensures { Copied (escape (text_in s.now t)) out.old out.new result }
{
    if out.len() / LONGEST < t.left {
        let n = escaped_len(s, t);
        if out.len() < n {
            return n;
        }
    }
    escape_parts(s, t, out)
}
