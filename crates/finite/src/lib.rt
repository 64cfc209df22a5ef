// Refusal 13: nonterminals that derive no text. Those that derive one are found in rounds over the productions, each production by what is found so far,
// until a round finds nothing more. In most grammars all are found in one round from the last production to the first, or in one more the other way
// round. Where productions stand in another order, lists tell which of them to try next (`lists`): so the time grows with the records, whatever the order.
#![tactic(auto)]

ghost use Rattle.std.specs.Prelude.{◌≡◌};
ghost use Rattle.rules.specs.Finite.{grammar_finite};
ghost use Rattle.stream.specs.Fault.{fault_of};
ghost use Rattle.limits.specs.Tables.{ProductionTable};
ghost use Rattle.finite.specs.Found.{FiniteAsks, SearchAsks, Rounded, AllFound, unfound};

mod lexemes;
mod lists;
mod productions;

use lexemes::class_lexemes;
use limits::nonterminals::{WORDS, is_marked};
use lists::by_lists;
use productions::try_production;
use stream::Stream;

// Tries every production, from the last to the first (`back`) or the other way round, which is one contract and one loop. Whether one more nonterminal
// was found.
fn round(
    g: &Stream<'_>,
    lexemes: &[bool],
    productions: &[u16],
    back: bool,
    found: &mut [u64; WORDS],
) -> bool
    requires { SearchAsks g.now lexemes.now productions.now found.old }
    ensures { Rounded g.now found.old found.new result }
{
    let mut more = false;
    for turn in 0..productions.len() {
        let i = if back {
            productions.len() - 1 - turn
        } else {
            turn
        };
        more |= try_production(g, lexemes, productions[i], found);
    }
    more
}

// Rounds until one finds nothing more, which is the first where the lists were right; and after each of the others the lists again. There are no more
// than productions, as each of them finds one.
fn rounds(g: &Stream<'_>, lexemes: &[bool], productions: &[u16], found: &mut [u64; WORDS])
    requires { SearchAsks g.now lexemes.now productions.now found.old }
    ensures { AllFound g.now found.new }
{
    for _ in 0..productions.len() {
        if !round(g, lexemes, productions, false, found) {
            return;
        }
        by_lists(g, lexemes, productions, found);
    }
}

// The place of the first production whose nonterminal isn't found.
fn first_unfound(g: &Stream<'_>, productions: &[u16], found: &[u64; WORDS]) -> Result<(), usize>
    requires { ProductionTable g.now productions.now }
    ensures { fault_of result ≡ unfound g.now found.now }
{
    for &p in productions {
        let head = g.fetch(p as usize);
        if !is_marked(found, head.b) {
            return Err(p as usize);
        }
    }
    Ok(())
}

// The place of the first production whose nonterminal derives no text, of a grammar that 5 let through: found in a round from the last production to
// the first, or in one more the other way round, or by the lists.
pub fn grammar_finite(g: &Stream<'_>, classes: &[u16], productions: &[u16]) -> Result<(), usize>
    requires { FiniteAsks g.now classes.now productions.now }
    ensures { fault_of result ≡ grammar_finite g.now }
{
    let lexemes = class_lexemes(g, classes);
    let mut found = [0u64; WORDS];
    for back in [true, false] {
        round(g, &lexemes, productions, back, &mut found);
        if first_unfound(g, productions, &found).is_ok() {
            return Ok(());
        }
    }
    by_lists(g, &lexemes, productions, &mut found);
    rounds(g, &lexemes, productions, &mut found);
    first_unfound(g, productions, &found)
}
