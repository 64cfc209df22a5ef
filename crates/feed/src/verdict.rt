// What the checks say, and the answers that are made of it.
ghost use Rattle.std.specs.Prelude.{◌≡◌};
ghost use Rattle.rules.specs.Faults.{need};
ghost use Rattle.rules.specs.Answers.{placed, try, accept};
ghost use Rattle.stream.specs.Fault.{fault_of};
ghost use Rattle.feed.specs.Verdict.{rule_number, kind_number, refusal_answer, verdict_of, first_of, run_answer};

use rules::Answer;
use stream::answer::{finished, refused};
use walk::state::Run;

// The rules that are tried before the walk, in the order of their numbers.
#[derive(Clone, Copy, Debug, PartialEq, Eq)]
pub enum Rule {
    Length = 1,
    Blocks,
    Layout,
    Limits,
    Names,
    Classes,
    TemplatesTyping,
    ValueTyping,
    Scratch,
}

// The kinds of streams, in the order of their numbers from 0; what offends against rule 9 stands in no stream.
#[derive(Clone, Copy, Debug, PartialEq, Eq)]
pub enum Kind {
    NoStream,
    Grammar,
    Templates,
    Value,
}

impl From<Rule> for u8 {
    ghost from_gives = { λ r n. n ≡ rule_number r };

    fn from(rule: Rule) -> u8 {
        rule as u8
    }
}

impl From<Kind> for u8 {
    ghost from_gives = { λ k n. n ≡ kind_number k };

    fn from(kind: Kind) -> u8 {
        kind as u8
    }
}

// The first offence: the rule, the kind of the stream, and the place there.
#[derive(Clone, Copy, Debug, PartialEq, Eq)]
pub struct Refusal {
    pub rule: Rule,
    pub kind: Kind,
    pub place: usize,
}

impl From<Refusal> for Answer {
    ghost from_gives = { λ r a. a ≡ refusal_answer r };

    fn from(refusal: Refusal) -> Answer {
        refused(refusal.rule.into(), refusal.kind.into(), refusal.place)
    }
}

// A test that fails at place 0.
pub(crate) fn at_first(right: bool) -> Result<(), usize>
    ensures { fault_of result ≡ need right 0 }
{
    if right { Ok(()) } else { Err(0) }
}

// What a rule says of a stream of a kind.
pub(crate) fn against(rule: Rule, kind: Kind, judged: Result<(), usize>) -> Result<(), Refusal>
    ensures { verdict_of result ≡ try (rule_number rule) (placed (kind_number kind) (fault_of judged)) accept }
{
    judged.map_err(|place| Refusal { rule, kind, place })
}

// What a rule says of the grammar, then of the templates, then of the value.
pub(crate) fn first(
    rule: Rule,
    g: Result<(), usize>,
    t: Result<(), usize>,
    v: Result<(), usize>,
) -> Result<(), Refusal>
    ensures { verdict_of result ≡ try (rule_number rule) (first_of (fault_of g) (fault_of t) (fault_of v)) accept }
{
    against(rule, Kind::Grammar, g)?;
    against(rule, Kind::Templates, t)?;
    against(rule, Kind::Value, v)
}

// The answer of a run: kind and place are 0 when it finished, and else those of the node that it ended at.
pub(crate) fn ended(r: Run) -> Answer
    ensures { result ≡ run_answer r }
{
    if r.number == 0 {
        return finished(r.steps, r.bytes);
    }
    Answer {
        number: u64::from(r.number),
        kind: Kind::Templates as u64,
        place: r.place as u64,
        steps: u64::from(r.steps),
        bytes: r.bytes as u64,
    }
}
