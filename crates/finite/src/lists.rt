// Which productions to try next. A production waits in a list for the nonterminal of its first element that isn't known to derive a text; when that is
// found, it goes on behind that element, and waits for another or is tried. So each element is looked at a few times, whatever the order of the
// productions. Nothing is promised of the lists: a production is tried before its nonterminal is found, and rounds come after. A wrong list would
// cost time and no more.
ghost use Rattle.std.specs.Prelude.{◌<◌, length};
ghost use Rattle.finite.specs.Found.{Grown, SearchAsks};

use crate::productions::{try_production, waiting};
use limits::nonterminals::WORDS;
use stream::Stream;

// The lists of all nonterminals: those with the same low bits share one, at most 8 of them.
const LISTS: usize = 8192;

// One list more: of the productions that have found their nonterminal, while those that wait for it haven't gone on.
const DUE: usize = 8192;

// So many productions a grammar has at most.
const PRODUCTIONS: usize = 8064;

// What is kept of a production: the next one in its list, the element at which it waits, and how many are left from there on.
#[derive(Clone, Copy)]
struct Entry {
    next: u16,
    at: u16,
    left: u16,
}

// The first production of each list, and what is kept of all of them. In a list a production is its number plus 1, and 0 is none: two
// bytes each, since an Option would double what is cleared.
#[derive(Drop)]
struct Lists {
    firsts: [u16; LISTS + 1],
    entries: [Entry; PRODUCTIONS],
}

// The next production in the list of production k.
fn after(lists: &Lists, k: usize) -> u16 {
    lists.entries.get(k).map_or(0, |entry| entry.next)
}

// Production k goes to the front of a list.
fn enlist(lists: &mut Lists, list: usize, k: usize) {
    if list <= LISTS && k < PRODUCTIONS {
        lists.entries[k].next = lists.firsts[list];
        lists.firsts[list] = k as u16 + 1;
    }
}

// Production k goes on from the element at which it waits.
fn advance(
    g: &Stream<'_>,
    lexemes: &[bool],
    productions: &[u16],
    k: usize,
    found: &mut [u64; WORDS],
    lists: &mut Lists,
)
    requires search_asks { SearchAsks g.now lexemes.now productions.now found.old }
    requires k_in_bounds { k < length productions.now }
    ensures { Grown g.now found.old found.new }
{
    let Some(entry) = lists.entries.get_mut(k) else {
        return;
    };
    let rest = waiting(g, lexemes, entry.at as usize, entry.left, found);
    entry.at = (rest.at % 65536) as u16;
    entry.left = rest.left;
    if 0 < rest.left {
        let element = g.fetch(rest.at);
        if element.a == 2 {
            enlist(lists, element.b as usize % LISTS, k);
        }
    } else if try_production(g, lexemes, productions[k], found) {
        enlist(lists, DUE, k);
    }
}

// All that wait for nonterminal n go on. (Their list is taken away before, as some may come back to it.)
fn wake(
    g: &Stream<'_>,
    lexemes: &[bool],
    productions: &[u16],
    n: u16,
    found: &mut [u64; WORDS],
    lists: &mut Lists,
)
    requires { SearchAsks g.now lexemes.now productions.now found.old }
    ensures { Grown g.now found.old found.new }
{
    let list = n as usize % LISTS;
    let mut next = lists.firsts[list];
    lists.firsts[list] = 0;
    for _ in 0..productions.len() {
        let Some(k) = (next as usize).checked_sub(1) else {
            return;
        };
        if productions.len() <= k {
            return;
        }
        next = after(lists, k);
        advance(g, lexemes, productions, k, found, lists);
    }
}

// Every production begins to wait at its first element.
fn begin(
    g: &Stream<'_>,
    lexemes: &[bool],
    productions: &[u16],
    found: &mut [u64; WORDS],
    lists: &mut Lists,
)
    requires { SearchAsks g.now lexemes.now productions.now found.old }
    ensures { Grown g.now found.old found.new }
{
    for (k, &p) in productions.iter().enumerate() {
        let head = g.fetch(p as usize);
        if let Some(entry) = lists.entries.get_mut(k) {
            entry.at = p.saturating_add(1);
            entry.left = head.d;
        }
        advance(g, lexemes, productions, k, found, lists);
    }
}

// Tries productions as the lists tell. Each finds its nonterminal once at most.
pub(crate) fn by_lists(
    g: &Stream<'_>,
    lexemes: &[bool],
    productions: &[u16],
    found: &mut [u64; WORDS],
)
    requires { SearchAsks g.now lexemes.now productions.now found.old }
    ensures { Grown g.now found.old found.new }
{
    let mut lists = Lists {
        firsts: [0; LISTS + 1],
        entries: [Entry {
            next: 0,
            at: 0,
            left: 0,
        }; PRODUCTIONS],
    };
    begin(g, lexemes, productions, found, &mut lists);
    for _ in 0..productions.len() {
        let Some(k) = (lists.firsts[DUE] as usize).checked_sub(1) else {
            return;
        };
        let Some(&p) = productions.get(k) else {
            return;
        };
        lists.firsts[DUE] = after(&lists, k);
        let head = g.fetch(p as usize);
        wake(g, lexemes, productions, head.b, found, &mut lists);
    }
}
