// Refusals 2 and 3 of streams that 1 let through, "each over grammar, templates, value before the next".
ghost use Rattle.std.specs.Prelude.{◌≡◌, [], ◌∷◌};
ghost use Rattle.rules.specs.Answers.{grammar, templates, value, accept};
ghost use Rattle.feed.specs.Asks.{ChildRoom, AllJudged};
ghost use Rattle.feed.specs.Verdict.{verdict_of, streams_refusal};

use crate::verdict::{Kind, Refusal, Rule, at_first, first};
use layout::grammar::grammar_layout;
use layout::template::templates_layout;
use layout::value::value_layout;
use stream::Stream;
use stream::blocks::block_fault;

// Of a grammar and a template set.
pub(crate) fn judge_two(g: &Stream<'_>, t: &Stream<'_>) -> Result<(), Refusal>
    ensures { verdict_of result ≡ streams_refusal (grammar g.now ∷ templates t.now ∷ []) accept }
{
    let of_g = block_fault(Kind::Grammar as u8, g.bytes());
    let of_t = block_fault(Kind::Templates as u8, t.bytes());
    first(Rule::Blocks, of_g, of_t, Ok(()))?;
    let of_g = at_first(grammar_layout(g));
    let of_t = at_first(templates_layout(t));
    first(Rule::Layout, of_g, of_t, Ok(()))
}

// Of these and a value, whose children go into a table on the way.
pub(crate) fn judge_all(
    g: &Stream<'_>,
    t: &Stream<'_>,
    v: &Stream<'_>,
    firsts: &mut [u16],
    places: &mut [u16],
) -> Result<(), Refusal>
    requires { ChildRoom v.now firsts.old places.old }
    ensures { AllJudged g.now t.now v.now firsts.new places.new result }
{
    let of_g = block_fault(Kind::Grammar as u8, g.bytes());
    let of_t = block_fault(Kind::Templates as u8, t.bytes());
    let of_v = block_fault(Kind::Value as u8, v.bytes());
    first(Rule::Blocks, of_g, of_t, of_v)?;
    let of_g = at_first(grammar_layout(g));
    let of_t = at_first(templates_layout(t));
    let of_v = at_first(value_layout(v, firsts, places));
    first(Rule::Layout, of_g, of_t, of_v)
}
