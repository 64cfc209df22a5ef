// UTF-8 by RFC 3629, byte by byte, where no class is asked.
ghost use Rattle.std.specs.Prelude.{◌≡◌, [], ◌<◌};
ghost use Rattle.rules.specs.Lexeme.{first_byte, later_byte};
ghost use Rattle.entities.specs.Utf8.{shape, calm, due_in, resumed, next_shape};

use crate::first_bytes::{least_next, most_next};

// Between two bytes of well-formed UTF-8: how many bytes of a character are still due, the next of them from low to high.
// (The scan of crate lexeme goes the same way: it has a character's bits and a count besides, which nothing here would read.)
#[derive(Clone, Copy)]
pub struct Utf8 {
    pub due: u8,
    pub low: u8,
    pub high: u8,
}

// Inside a character.
fn due(due: u8, low: u8, high: u8) -> Utf8
    ensures { result ≡ due_in due low high }
{
    Utf8 { due, low, high }
}

// Between two characters, or at the beginning of a text.
pub(crate) fn between() -> Utf8
    ensures { result ≡ calm }
{
    due(0, 0, 0)
}

// The first byte of a character.
fn first(b: u8) -> Option<Utf8>
    ensures { result ≡ shape (first_byte [] b) }
{
    match b {
        0..=0x7f => Some(between()),
        0x80..=0xc1 => None,
        0xc2..=0xdf => Some(due(1, 0x80, 0xbf)),
        0xe0..=0xef => Some(due(2, least_next(b), most_next(b))),
        0xf0..=0xf4 => Some(due(3, least_next(b), most_next(b))),
        _ => None,
    }
}

// A later byte of a character.
fn later(u: Utf8, b: u8) -> Option<Utf8>
    requires { 0 < u.due }
    ensures { result ≡ shape (later_byte (resumed u) b) }
{
    if b < u.low || u.high < b {
        None
    } else if u.due == 1 {
        Some(between())
    } else {
        Some(due(u.due - 1, 0x80, 0xbf))
    }
}

// A byte more; none, if no well-formed UTF-8 goes on with it.
pub(crate) fn next(u: Utf8, b: u8) -> Option<Utf8>
    ensures { result ≡ next_shape u b }
{
    if u.due == 0 { first(b) } else { later(u, b) }
}
