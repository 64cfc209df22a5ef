// The five entities, and which byte one stands for.
ghost use Rattle.std.specs.Prelude.{◌≡◌, ◌≤◌, ◌<◌, length, drop, get_or};
ghost use Rattle.stream.specs.Text.{text_in};
ghost use Rattle.entities.specs.Entity.{EntityOf, own, Reads, PlainIn};

use stream::text::{Text, copy_text};

// What a byte is turned into, if it is one of the five that don't stand for themselves.
#[tactic(auto, unfolding(rules::specs::Escape::entity))]
pub(crate) fn entity_of(b: u8) -> Option<&'static [u8]>
    ensures { EntityOf b result }
{
    match b {
        b'&' => Some(b"&amp;"),
        b'<' => Some(b"&lt;"),
        b'>' => Some(b"&gt;"),
        b'"' => Some(b"&quot;"),
        b'\'' => Some(b"&apos;"),
        _ => None,
    }
}

// No entity is longer.
pub(crate) const LONGEST: usize = 6;

// Whether a byte stands for itself.
pub(crate) fn is_own(b: u8) -> bool
    ensures { result ≡ own b }
{
    entity_of(b).is_none()
}

// A byte of a plain text, and how many bytes its escaped form has.
#[derive(Clone, Copy)]
pub struct Plain {
    pub byte: u8,
    pub length: usize,
}

// The byte whose entity a text begins with, which has an ampersand there. (Inlined, as plain_at is.)
#[inline(always)]
fn entity_at(text: &[u8]) -> Option<Plain>
    requires { get_or text.now 0 0 ≡ 0x26 }
    ensures { Reads text.now result }
{
    // The five once more: with one table of pairs for both searches the proof didn't close (its references lie at unknown places).
    for byte in [b'&', b'<', b'>', b'"', b'\''] {
        let entity = entity_of(byte)?;
        if text.starts_with(entity) {
            return Some(Plain {
                byte,
                length: entity.len(),
            });
        }
    }
    None
}

// The byte whose escaped form a text has at a place: most bytes are their own. At its end there is none. (Inlined, since an `Option` of two numbers
// comes back through memory.)
#[inline(always)]
pub fn plain_at(text: &[u8], at: usize) -> Option<Plain>
    ensures { Reads (drop at text.now) result }
{
    match *text.get(at)? {
        b'&' => entity_at(&text[at..]),
        byte => is_own(byte).then_some(Plain { byte, length: 1 }),
    }
}

// The byte whose escaped form a text in a stream begins with, which may go on in the next block. The stream has all bytes of the text.
pub fn plain_in(s: &[u8], t: Text) -> Option<Plain>
    requires { (1 ≤ t.left) × (length (text_in s.now t) ≡ t.left) }
    ensures { PlainIn s.now t result }
{
    let n = t.left.min(LONGEST);
    let mut window = [0; LONGEST];
    copy_text(s, Text { at: t.at, left: n }, &mut window);
    plain_at(&window[..n], 0)
}
