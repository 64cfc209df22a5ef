// The calls of the page machine. Each is equal to its definition in crate rules, for any bytes of any lengths. Nothing stands here but the
// stated order of the checks; the exports for other languages are crate feed_c.
#![tactic(auto)]

ghost use Rattle.std.specs.Prelude.{◌≡◌, ◌≤◌, length};
ghost use Rattle.rules.specs.Answers.{check_refusal, check, evaluate};
ghost use Rattle.rules.specs.Records.{record_count};
ghost use Rattle.feed.specs.Asks.{Room, GrammarRoom, StreamsLaid, MarkAsks, HeadsMarked};
ghost use Rattle.feed.specs.Verdict.{verdict_of, SetLaid, judgement, evaluate_answer, outcome};

mod set;
mod streams;
mod verdict;

pub use entities::unescape::unescape;
use rules::Answer;
use set::judge;
use stream::Stream;
use stream::answer::finished;
pub use stream::block::block_payload;
use stream::blocks::length_fault;
pub use stream::fnv::START;
pub use stream::pack::{pack, unpack};
use streams::{judge_all, judge_two};
use verdict::{Kind, Refusal, Rule, ended, first};
use walk::state::Run;
use walk::{mark, run};

// The records of a whole stream, and of one of at most 8 blocks. Each head takes a record of its own: a table of either length has room for the
// heads of such a template set, or for the children of such a value.
const RECORDS: usize = 8064;

const SMALL_RECORDS: usize = 504;

const SMALL_STREAM: usize = 4096;

// The same for a grammar, whose classes and productions have their heads in one table, with a number behind them for the walk.
const GRAMMAR_HEADS: usize = 8065;

const SMALL_GRAMMAR_HEADS: usize = 505;

// Refusal 9: "fewer than 4,800 16-bit numbers, 24 for each depth".
const SCRATCH: usize = 4800;

// A set and a value that 1 to 3 let through, and the table of the value's children.
#[derive(Clone, Copy)]
struct Laid<'a> {
    g: &'a Stream<'a>,
    t: &'a Stream<'a>,
    v: &'a Stream<'a>,
    firsts: &'a [u16],
    places: &'a [u16],
    ghost laid: { StreamsLaid g.now t.now v.now firsts.now places.now },
}

// 4 to 7 of a grammar and a template set that 1 to 3 let through, with a table of N numbers for the grammar's heads. The templates' go into one
// that is lent.
fn check_tabled<const N: usize>(
    g: &Stream<'_>,
    t: &Stream<'_>,
    theads: &mut [u16],
) -> Result<(), Refusal>
    requires laid { SetLaid g.now t.now }
    requires grammar_room { GrammarRoom g.now N }
    requires templates_room { record_count t.now ≤ length theads.old }
    ensures { verdict_of result ≡ judgement g.now t.now None }
{
    let mut gheads = [0u16; N];
    judge(g, t, None, &mut gheads, theads)?;
    Ok(())
}

// The same with a table of N numbers for the templates' heads too.
fn check_laid<const N: usize>(g: &Stream<'_>, t: &Stream<'_>) -> Result<(), Refusal>
    requires laid { SetLaid g.now t.now }
    requires templates_room { Room t.now N }
    ensures { verdict_of result ≡ judgement g.now t.now None }
{
    let mut theads = [0u16; N];
    if g.bytes().len() <= SMALL_STREAM {
        check_tabled::<SMALL_GRAMMAR_HEADS>(g, t, &mut theads)
    } else {
        check_tabled::<GRAMMAR_HEADS>(g, t, &mut theads)
    }
}

// 2 to 7 of a grammar and a template set that 1 let through. Small streams, which are most, take small tables of heads, which are sooner cleared.
fn check_streams(g: &Stream<'_>, t: &Stream<'_>) -> Result<(), Refusal>
    ensures { verdict_of result ≡ check_refusal g.now t.now }
{
    judge_two(g, t)?;
    if t.bytes().len() <= SMALL_STREAM {
        check_laid::<SMALL_RECORDS>(g, t)
    } else {
        check_laid::<RECORDS>(g, t)
    }
}

// 1 to 7 of a grammar and a template set.
fn check_set(g: &[u8], t: &[u8]) -> Result<(), Refusal>
    ensures { verdict_of result ≡ check_refusal g.now t.now }
{
    first(Rule::Length, length_fault(g), length_fault(t), Ok(()))?;
    let g = Stream::of(g);
    let t = Stream::of(t);
    check_streams(&g, &t)
}

// The check call: 1 to 7 of a grammar and a template set. Five zeros mean accepted.
pub fn check(g: &[u8], t: &[u8]) -> Answer
    ensures { result ≡ check g.now t.now }
{
    match check_set(g, t) {
        Ok(()) => finished(0, 0),
        Err(refusal) => Answer::from(refusal),
    }
}

// Makes the table of the grammar's heads that of the walk: marks in the place of the classes' heads, for which it has no use, then the productions,
// then how many marks there are. The answer is where it begins: where no class is escaped, behind the classes.
fn mark_heads(g: &Stream<'_>, heads: &mut [u16], classes: usize, productions: usize) -> usize
    requires { MarkAsks g.now heads.old classes productions }
    ensures { HeadsMarked g.now productions heads.new result }
{
    let marks = mark(g, &mut heads[..classes]);
    heads[productions] = marks as u16;
    classes - marks
}

impl Laid<'_> {
    // 4 to 9, and the walk, with a table of N numbers for the grammar's heads. The templates' go into one that is lent. (Fuel, output and scratch
    // stay apart: clauses over a struct that lends two of them would read no plainer.)
    fn evaluate_tabled<const N: usize>(
        &self,
        theads: &mut [u16],
        fuel: u32,
        out: &mut [u8],
        scratch: &mut [u16],
    ) -> Result<Run, Refusal>
        requires grammar_room { GrammarRoom self.now.g.now N }
        requires templates_room { record_count self.now.t.now ≤ length theads.old }
        ensures { outcome (evaluate_answer result) out.new scratch.new ≡ evaluate self.now.g.now self.now.t.now self.now.v.now fuel out.old scratch.old }
    {
        let mut table = [0u16; N];
        let gheads = &mut table[..];
        let heads = judge(self.g, self.t, Some(self.v), gheads, theads)?;
        if scratch.len() < SCRATCH {
            return Err(Refusal {
                rule: Rule::Scratch,
                kind: Kind::NoStream,
                place: 0,
            });
        }
        let ts = &theads[heads.types..heads.templates];
        let from = mark_heads(self.g, gheads, heads.classes, heads.productions);
        let ps = &gheads[from..heads.productions + 1];
        Ok(run(
            self.g,
            self.t,
            self.v,
            ps,
            ts,
            self.firsts,
            self.places,
            fuel,
            out,
            scratch,
        ))
    }

    // The same with a table of N numbers for the templates' heads too.
    fn evaluate<const N: usize>(
        &self,
        fuel: u32,
        out: &mut [u8],
        scratch: &mut [u16],
    ) -> Result<Run, Refusal>
        requires { Room self.now.t.now N }
        ensures { outcome (evaluate_answer result) out.new scratch.new ≡ evaluate self.now.g.now self.now.t.now self.now.v.now fuel out.old scratch.old }
    {
        let mut theads = [0u16; N];
        if self.g.bytes().len() <= SMALL_STREAM {
            self.evaluate_tabled::<SMALL_GRAMMAR_HEADS>(&mut theads, fuel, out, scratch)
        } else {
            self.evaluate_tabled::<GRAMMAR_HEADS>(&mut theads, fuel, out, scratch)
        }
    }
}

// 2 to 9 of three streams that 1 let through, and the walk, with a table of N children. (2 and 3 are judged here and not before: called for both N,
// the scan of the value stays a function of its own in the machine code, and keeps its registers to itself.)
fn evaluate_streams<const N: usize>(
    g: &Stream<'_>,
    t: &Stream<'_>,
    v: &Stream<'_>,
    fuel: u32,
    out: &mut [u8],
    scratch: &mut [u16],
) -> Result<Run, Refusal>
    requires { Room v.now N }
    ensures { outcome (evaluate_answer result) out.new scratch.new ≡ evaluate g.now t.now v.now fuel out.old scratch.old }
{
    let mut firsts = [0u16; N];
    let mut places = [0u16; N];
    judge_all(g, t, v, &mut firsts, &mut places)?;
    let laid = Laid {
        g,
        t,
        v,
        firsts: &firsts,
        places: &places,
    };
    if t.bytes().len() <= SMALL_STREAM {
        laid.evaluate::<SMALL_RECORDS>(fuel, out, scratch)
    } else {
        laid.evaluate::<RECORDS>(fuel, out, scratch)
    }
}

// 1 to 9, and the walk. A small value takes a small table of children.
fn evaluate_all(
    g: &[u8],
    t: &[u8],
    v: &[u8],
    fuel: u32,
    out: &mut [u8],
    scratch: &mut [u16],
) -> Result<Run, Refusal>
    ensures { outcome (evaluate_answer result) out.new scratch.new ≡ evaluate g.now t.now v.now fuel out.old scratch.old }
{
    first(
        Rule::Length,
        length_fault(g),
        length_fault(t),
        length_fault(v),
    )?;
    let g = Stream::of(g);
    let t = Stream::of(t);
    let v = Stream::of(v);
    if v.bytes().len() <= SMALL_STREAM {
        evaluate_streams::<SMALL_RECORDS>(&g, &t, &v, fuel, out, scratch)
    } else {
        evaluate_streams::<RECORDS>(&g, &t, &v, fuel, out, scratch)
    }
}

// The evaluate call: 1 to 9, and then the walk. Refused by 1 to 9 it leaves the output and the scratch as they were.
pub fn evaluate(
    g: &[u8],
    t: &[u8],
    v: &[u8],
    fuel: u32,
    out: &mut [u8],
    scratch: &mut [u16],
) -> Answer
    ensures { outcome result out.new scratch.new ≡ evaluate g.now t.now v.now fuel out.old scratch.old }
{
    match evaluate_all(g, t, v, fuel, out, scratch) {
        Ok(run) => ended(run),
        Err(refusal) => Answer::from(refusal),
    }
}
