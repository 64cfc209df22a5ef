// Refusals 7 and 8: the templates against the grammar, the value against its type.
#![tactic(auto)]

mod asked;
mod checker;
mod kinds;
mod nodes;
mod suits;
pub mod templates;
pub mod value;

use rules::Position;

// A stream has at most so many records.
pub const RECORDS: usize = 8064;

// At most so many variables are in scope: 8 parameters, and one for each of 16 loops, an item or the content of a case.
pub const VARIABLES: usize = 24;

// Nodes and values stand at most so deep.
pub const LEVELS: usize = 200;

// What a type is: a text of a class, a yes/no, a list of items of a type, or a record or a variant, by the place of its head and its number of
// fields or cases. That a type is missing is a variant and no None, since rules has it among the forms of a type (TypeForm, no_type).
#[derive(Clone, Copy)]
pub enum Kind {
    Text(u16),
    YesNo,
    Items(u16),
    Fields(u16, u16),
    Cases(u16, u16),
    Missing,
}

// A node to check: its place, its position, and how many variables are in scope. Their types are the first `count` numbers of one array,
// which every check is lent.
#[derive(Clone, Copy)]
pub struct Frame {
    pub node: usize,
    pub position: Position,
    pub count: usize,
}

// What nodes in a row have as one variable more: nothing; an item of a type; or each the content of its case, by the place of the variant's head.
#[derive(Clone, Copy)]
pub enum Brings {
    Nothing,
    Item(u16),
    Contents(u16),
}

// The positions of nodes in a row: all in one, with what they have as one variable more; or each in that of its element, by the place of a
// production's row in the table of asked elements.
#[derive(Clone, Copy)]
pub enum Positions {
    Alike(Position, Brings),
    Asked(u16),
}

// What stands directly below a node: so many nodes in a row from a place on, in these positions.
#[derive(Clone, Copy)]
pub struct Below {
    pub first: usize,
    pub count: usize,
    pub positions: Positions,
}

// A node that does not suit its position: its place, and that position.
#[derive(Clone, Copy)]
pub struct Misfit {
    pub node: usize,
    pub position: Position,
}
