// The types that the definitions and the code share. What they mean stands in specs/.
#![tactic(auto)]

// The answer of a call: its number (0 finished, or the refusal's), stream kind, place, steps, bytes written.
#[derive(Clone, Copy)]
pub struct Answer {
    pub number: u64,
    pub kind: u64,
    pub place: u64,
    pub steps: u64,
    pub bytes: u64,
}

// What a position asks for: a lexeme of a class, a text of a nonterminal or a repetition of one, by their numbers.
// An item is what stands in a sequence: what its nonterminal asks for, or a for over such. Nothing is asked for by an element whose form there
// isn't: no node suits it, and layout admits none.
#[derive(Clone, Copy)]
pub enum Position {
    Class(u16),
    Nonterminal(u16),
    Repetition(u16),
    Item(u16),
    Nothing,
}

// The forms of a template node, in the order of their numbers from 0; a number above 7 is no form.
#[derive(Clone, Copy)]
pub enum Form {
    Build,
    Literal,
    Place,
    Expand,
    If,
    For,
    Sequence,
    Match,
    Unknown,
}
