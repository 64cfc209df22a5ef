// The table of asked elements: what the positions of each production are, with its keywords left out.
ghost use Rattle.std.specs.Prelude.{◌≡◌, length};
ghost use Rattle.std.proofs.Math.Option.{none};
ghost use Rattle.rules.specs.Blocks.{stream_length};
ghost use Rattle.rules.specs.Grammar.{productions as productionHeads};
ghost use Rattle.rules.specs.Records.{kind_of};
ghost use Rattle.typing.specs.Asked.{AskedFilled, RowPut, position_at};

use crate::RECORDS;
use records::element::size_of;
use rules::Position;
use stream::Stream;

// What the element at e asks for. A keyword asks for nothing, and neither does an element whose form there isn't.
pub fn position_at(g: &Stream<'_>, e: u16) -> Position
    ensures { result ≡ position_at g.now e }
{
    let r = g.fetch(usize::from(e));
    match r.a {
        1 => Position::Class(r.b),
        2 => Position::Nonterminal(r.b),
        3 | 4 => Position::Repetition(r.b),
        _ => Position::Nothing,
    }
}

// Puts in the row of the production at h. The row needs no more room than the production's own records.
// (That refusal 1 let the grammar through stays a clause: that room follows from it, and no bytes are taken here, by which the type would tell it.)
fn put_row(g: &Stream<'_>, h: u16, asked: &mut [u16; RECORDS])
    requires { (stream_length g.now ≡ none) × (kind_of g.now h ≡ 3) × (length asked.old ≡ 8064) }
    ensures { RowPut g.now h asked.old asked.new }
{
    let q = usize::from(h);
    let n = g.fetch(q).d;
    let mut e = q + 1;
    let mut count = 0;
    for _i in 0..n {
        let r = g.fetch(e);
        if r.a != 0 {
            asked[q + 1 + count] = e as u16;
            count += 1;
        }
        e += size_of(r);
    }
    asked[q] = count as u16;
}

// Puts in the rows of all productions.
pub fn fill(g: &Stream<'_>, productions: &[u16], asked: &mut [u16; RECORDS])
    requires { (stream_length g.now ≡ none) × (productions.now ≡ productionHeads g.now) × (length asked.old ≡ 8064) }
    ensures { AskedFilled g.now asked.new }
{
    for h in productions {
        put_row(g, *h, asked);
    }
}
