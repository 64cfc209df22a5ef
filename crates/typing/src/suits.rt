// A node's own test: whether it suits its position, whatever stands below it.
ghost use Rattle.std.specs.Prelude.{◌≡◌, List, map, ℕ, ◌+◌, ◌<◌};
ghost use Rattle.rules.specs.Records.{field_b, row};
ghost use Rattle.rules.specs.Templates.{form_of};
ghost use Rattle.rules.specs.Typing.{asks_class, asks_nonterminal, asks_repetition, asks_item, arguments_fit, suits_form};
ghost use Rattle.stream.specs.Record.{Fetched};
ghost use Rattle.typing.specs.Answers.{found, site_at, leaf_of, Tests};
ghost use Rattle.typing.specs.Asks.{RoomBelow};

use crate::checker::Checker;
use crate::kinds::{head, path_kind, path_type};
use crate::{Below, Brings, Frame, Kind, Positions};
use lexeme::{is_lexeme, source_of};
use records::node::form_of;
use rules::{Form, Position};
use stream::record::Record;

// The class that a position asks for.
fn asks_class(p: Position) -> Option<u16>
    ensures { found result ≡ asks_class p }
{
    match p {
        Position::Class(n) => Some(n),
        _ => None,
    }
}

// The nonterminal that a position asks for.
pub fn asks_nonterminal(p: Position) -> Option<u16>
    ensures { found result ≡ asks_nonterminal p }
{
    match p {
        Position::Nonterminal(n) | Position::Item(n) => Some(n),
        _ => None,
    }
}

// The nonterminal whose repetition a position asks for.
pub fn asks_repetition(p: Position) -> Option<u16>
    ensures { found result ≡ asks_repetition p }
{
    match p {
        Position::Repetition(n) => Some(n),
        _ => None,
    }
}

// The nonterminal of a sequence's item.
pub fn asks_item(p: Position) -> Option<u16>
    ensures { found result ≡ asks_item p }
{
    match p {
        Position::Item(n) => Some(n),
        _ => None,
    }
}

// Of a node that has nothing below it: the answer of its own test.
fn leaf(ok: bool) -> Option<Below>
    ensures { result ≡ leaf_of ok }
{
    ok.then_some(Below {
        first: 0,
        count: 0,
        positions: Positions::Asked(0),
    })
}

// A sequence: for a repetition. Its nodes are in the position of an item.
fn suits_sequence(f: Frame, r: Record) -> Option<Below>
    requires { RoomBelow 1 f.node }
    ensures { (g t asked vars : List ℕ) → Fetched t f.node r → Tests g t asked (site_at vars f) Form.Sequence result }
{
    let n = asks_repetition(f.position)?;
    Some(Below {
        first: f.node + 1,
        count: usize::from(r.d),
        positions: Positions::Alike(Position::Item(n), Brings::Nothing),
    })
}

impl Checker<'_, '_> {
    // A build: of a production of its nonterminal, with a child for each element that is no keyword, in that element's position.
    fn suits_build(&self, f: Frame, r: Record) -> Option<Below>
        requires { (RoomBelow 1 f.node) × (Fetched self.now.t.now f.node r) }
        ensures { (vars : List ℕ) → Tests self.now.g.now self.now.t.now self.now.asked.now (site_at vars f) Form.Build result }
    {
        let n = asks_nonterminal(f.position)?;
        let q = head(self.productions, r.b)?;
        let at = usize::from(q);
        if self.g.fetch(at).b != n || self.asked[at] != r.d {
            return None;
        }
        Some(Below {
            first: f.node + 1,
            count: usize::from(r.d),
            positions: Positions::Asked(q),
        })
    }

    // A literal: a lexeme of its class.
    fn suits_literal(&self, f: Frame) -> bool
        ensures { (vars : List ℕ) → result ≡ suits_form self.now.g.now self.now.t.now Form.Literal (site_at vars f) }
    {
        let Some(c) = asks_class(f.position) else {
            return false;
        };
        is_lexeme(self.g, self.classes, self.sets, c, self.t, f.node)
    }

    // A place: its path finds a text of that very class, or of the plain class that an escaped class names.
    fn suits_place(&self, vars: &[u16], f: Frame) -> bool
        requires { RoomBelow 1 f.node }
        ensures { result ≡ suits_form self.now.g.now self.now.t.now Form.Place (site_at vars.now f) }
    {
        let Some(c) = asks_class(f.position) else {
            return false;
        };
        match path_kind(self.t, self.types, vars, f.node + 1) {
            Kind::Text(d) => source_of(self.g, self.classes, c).plain() == d,
            _ => false,
        }
    }

    // Whether the n paths of the node find the types of n parameters of the template at q, by their numbers.
    fn arguments_fit(&self, vars: &[u16], f: Frame, n: usize, q: usize) -> bool
        requires { (RoomBelow 1 f.node) × (RoomBelow 1 q) × (n < 65536) }
        ensures { result ≡ arguments_fit self.now.t.now vars.now (row n (f.node + 1)) (map (field_b self.now.t.now) (row n (q + 1))) }
    {
        for i in 0..n {
            let Some(has) = path_type(self.t, self.types, vars, f.node + 1 + i) else {
                return false;
            };
            let r = self.t.fetch(q + 1 + i);
            if r.b != has {
                return false;
            }
        }
        true
    }

    // An expand: of a template of its nonterminal, with a path for each parameter that finds the parameter's type.
    fn suits_expand(&self, vars: &[u16], f: Frame, r: Record) -> bool
        requires { (RoomBelow 1 f.node) × (Fetched self.now.t.now f.node r) }
        ensures { result ≡ suits_form self.now.g.now self.now.t.now Form.Expand (site_at vars.now f) }
    {
        let Some(n) = asks_nonterminal(f.position) else {
            return false;
        };
        let Some(h) = head(self.templates, r.b) else {
            return false;
        };
        let q = usize::from(h);
        let p = self.t.fetch(q);
        let parameters = u16::from(p.a);
        if p.b != n || r.d != parameters {
            return false;
        }
        self.arguments_fit(vars, f, usize::from(r.d), q)
    }

    // An if: on a yes/no, for a nonterminal. Both branches are in the position of that nonterminal, whichever will be taken.
    fn suits_if(&self, vars: &[u16], f: Frame) -> Option<Below>
        requires { RoomBelow 1 f.node }
        ensures { Tests self.now.g.now self.now.t.now self.now.asked.now (site_at vars.now f) Form.If result }
    {
        let n = asks_nonterminal(f.position)?;
        let Kind::YesNo = path_kind(self.t, self.types, vars, f.node + 1) else {
            return None;
        };
        Some(Below {
            first: f.node + 2,
            count: 2,
            positions: Positions::Alike(Position::Nonterminal(n), Brings::Nothing),
        })
    }

    // A for: over a list, as an item of a sequence. Its body has one variable more, an item of the list.
    fn suits_for(&self, vars: &[u16], f: Frame) -> Option<Below>
        requires { RoomBelow 1 f.node }
        ensures { Tests self.now.g.now self.now.t.now self.now.asked.now (site_at vars.now f) Form.For result }
    {
        let n = asks_item(f.position)?;
        let Kind::Items(ty) = path_kind(self.t, self.types, vars, f.node + 1) else {
            return None;
        };
        Some(Below {
            first: f.node + 2,
            count: 1,
            positions: Positions::Alike(Position::Nonterminal(n), Brings::Item(ty)),
        })
    }

    // A match: on a variant, for a nonterminal, with an arm for each case. All arms are in the position of that nonterminal, whichever will be taken,
    // and each has one variable more, the content of its case.
    fn suits_match(&self, vars: &[u16], f: Frame, r: Record) -> Option<Below>
        requires { (RoomBelow 1 f.node) × (Fetched self.now.t.now f.node r) }
        ensures { Tests self.now.g.now self.now.t.now self.now.asked.now (site_at vars.now f) Form.Match result }
    {
        let n = asks_nonterminal(f.position)?;
        let Kind::Cases(h, d) = path_kind(self.t, self.types, vars, f.node + 1) else {
            return None;
        };
        if d != r.d {
            return None;
        }
        Some(Below {
            first: f.node + 2,
            count: usize::from(r.d),
            positions: Positions::Alike(Position::Nonterminal(n), Brings::Contents(h)),
        })
    }

    // A node's own test, from its head r, by its form: whether it suits its position, and what stands below it.
    pub fn own_test(&self, vars: &[u16], f: Frame, r: Record) -> Option<Below>
        requires { (RoomBelow 1 f.node) × (Fetched self.now.t.now f.node r) }
        ensures { Tests self.now.g.now self.now.t.now self.now.asked.now (site_at vars.now f) (form_of self.now.t.now f.node) result }
    {
        match form_of(r) {
            Form::Build => self.suits_build(f, r),
            Form::Literal => leaf(self.suits_literal(f)),
            Form::Place => leaf(self.suits_place(vars, f)),
            Form::Expand => leaf(self.suits_expand(vars, f, r)),
            Form::If => self.suits_if(vars, f),
            Form::For => self.suits_for(vars, f),
            Form::Sequence => suits_sequence(f, r),
            Form::Match => self.suits_match(vars, f, r),
            Form::Unknown => None,
        }
    }
}
