// Refusals 4 to 8, and the tables of heads that they go by.
ghost use Rattle.std.specs.Prelude.{◌≡◌, IsTrue, ◌*◌, ◌≤◌, length, option_copied};
ghost use Rattle.std.proofs.Math.Option.{none};
ghost use Rattle.rules.specs.Answers.{try, accept};
ghost use Rattle.rules.specs.Names.{grammar_names, templates_names};
ghost use Rattle.stream.specs.Fault.{fault_of};
ghost use Rattle.feed.specs.Asks.{Tabled, ValueSized, SetsRoom, SetJudged, HeadsAsk, HeadsJudged};
ghost use Rattle.feed.specs.Verdict.{verdict_of, first_of, depth_of, judgement};

use crate::verdict::{Kind, Refusal, Rule, against, first};
use layout::heads::{grammar_heads, templates_heads};
use lexeme::sets::{SMALL_TABLE, TABLE, class_sets};
use limits::classes::grammar_classes;
use limits::grammar::grammar_names;
use limits::names::templates_names;
use limits::nonterminals::nonterminals;
use limits::templates::templates_limits;
use limits::value::value_limits;
use stream::Stream;
use typing::templates::templates_typing;
use typing::value::value_typing;

// A grammar and a template set, with the heads of each kind by their numbers.
#[derive(Clone, Copy)]
struct Set<'a> {
    g: &'a Stream<'a>,
    t: &'a Stream<'a>,
    classes: &'a [u16],
    productions: &'a [u16],
    types: &'a [u16],
    templates: &'a [u16],
    ghost tabled: { Tabled g.now t.now classes.now productions.now types.now templates.now },
}

// Where the heads of each kind end in their table: productions stand behind classes, templates behind types.
#[derive(Clone, Copy)]
pub(crate) struct Heads {
    pub classes: usize,
    pub productions: usize,
    pub types: usize,
    pub templates: usize,
}

// What refusal 4 says of a value, if one comes.
fn value_depth(value: Option<&Stream<'_>>) -> Result<(), usize>
    ensures { fault_of result ≡ depth_of (option_copied value.entry) }
{
    match value {
        Some(v) => value_limits(v),
        None => Ok(()),
    }
}

impl Set<'_> {
    // Refusal 5 of both streams. (The nonterminals are marked on this function's own stack, which is free again for the typing.)
    fn judge_names(&self) -> Result<(), Refusal>
        ensures { verdict_of result ≡ try 5 (first_of (grammar_names self.now.g.now) (templates_names self.now.g.now self.now.t.now) none) accept }
    {
        let marked = nonterminals(self.g, self.productions);
        let of_g = grammar_names(self.g, self.classes, self.productions, &marked);
        let of_t = templates_names(
            self.g,
            self.t,
            self.classes,
            self.productions,
            self.types,
            self.templates,
            &marked,
        );
        first(Rule::Names, of_g, of_t, Ok(()))
    }

    // `value` is what refusal 4 says of the value that comes with them. The class sets are compiled on the way, for the texts of the templates and
    // of the value.
    fn judge_set(&self, value: Result<(), usize>, sets: &mut [u16]) -> Result<(), Refusal>
        requires { 128 * length self.now.classes.now ≤ length sets.old }
        ensures { SetJudged self.now.g.now self.now.t.now (fault_of value) self.now.classes.now sets.new result }
    {
        let deep = templates_limits(self.t, self.templates);
        first(Rule::Limits, Ok(()), deep, value)?;
        self.judge_names()?;
        let wrong = grammar_classes(self.g, self.classes);
        against(Rule::Classes, Kind::Grammar, wrong)?;
        class_sets(self.g, self.classes, sets);
        let typed = templates_typing(
            self.g,
            self.t,
            self.classes,
            sets,
            self.productions,
            self.types,
            self.templates,
        );
        against(Rule::TemplatesTyping, Kind::Templates, typed)
    }

    // Whether a small table has room for the sets of its classes, and for hints to all ranges that its grammar could have.
    fn fits_small(&self) -> bool
        ensures { IsTrue result → 128 * length self.now.classes.now ≤ 4096 }
    {
        128 * self.classes.len() + self.g.bytes().len() / 8 <= SMALL_TABLE
    }

    // 4 to 8, with a table of class sets of N numbers.
    fn judge_over<const N: usize>(&self, value: Option<&Stream<'_>>) -> Result<(), Refusal>
        requires room { SetsRoom self.now.classes.now N }
        requires value_sized { ValueSized (option_copied value) }
        ensures { verdict_of result ≡ judgement self.now.g.now self.now.t.now (option_copied value.entry) }
    {
        let mut sets = [0u16; N];
        self.judge_set(value_depth(value), &mut sets)?;
        let Some(v) = value else {
            return Ok(());
        };
        let typed = value_typing(
            self.g,
            self.t,
            v,
            self.classes,
            &sets,
            self.types,
            self.templates,
        );
        against(Rule::ValueTyping, Kind::Value, typed)
    }

    // The same. Small grammars, which are most, take a small table, which is sooner cleared.
    fn judge_tabled(&self, value: Option<&Stream<'_>>) -> Result<(), Refusal>
        requires { ValueSized (option_copied value) }
        ensures { verdict_of result ≡ judgement self.now.g.now self.now.t.now (option_copied value.entry) }
    {
        if self.fits_small() {
            self.judge_over::<SMALL_TABLE>(value)
        } else {
            self.judge_over::<TABLE>(value)
        }
    }
}

// 4 to 7 of a grammar and a template set that 1 to 3 let through, and 4 and 8 of a value if one comes with them. The heads go into tables that are
// lent. The class sets lie on this function's stack, and are gone when the walk starts: check and evaluate both judge by it, and it is too large
// for the compiler to put it into either.
pub(crate) fn judge<'a>(
    g: &'a Stream<'a>,
    t: &'a Stream<'a>,
    value: Option<&Stream<'_>>,
    gheads: &mut [u16],
    theads: &mut [u16],
) -> Result<Heads, Refusal>
    requires { HeadsAsk g.now t.now (option_copied value) gheads.old theads.old }
    ensures { HeadsJudged g.now t.now (option_copied value.entry) gheads.new theads.new result }
{
    let in_g = grammar_heads(g, gheads);
    let in_t = templates_heads(t, theads);
    let classes = in_g.first;
    let productions = classes + in_g.second;
    let types = in_t.first;
    let templates = types + in_t.second;
    let of_g = &gheads[..];
    let of_t = &theads[..];
    let set = Set {
        g,
        t,
        classes: &of_g[..classes],
        productions: &of_g[classes..productions],
        types: &of_t[..types],
        templates: &of_t[types..templates],
    };
    set.judge_tabled(value)?;
    Ok(Heads {
        classes,
        productions,
        types,
        templates,
    })
}
