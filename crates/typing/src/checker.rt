// What the checks are lent. The streams have a lifetime 's of their own, since the asked elements are lent from a frame that the streams outlive.
ghost use Rattle.typing.specs.Asks.{CheckerTables, ValueTables};

use crate::RECORDS;
use stream::Stream;

// For the templates: the grammar and the templates, and the tables of their heads by their numbers: the classes with the sets of their characters,
// the productions with their asked elements, the types and the templates.
#[derive(Clone, Copy)]
pub struct Checker<'a, 's> {
    pub g: &'a Stream<'s>,
    pub t: &'a Stream<'s>,
    pub classes: &'a [u16],
    pub sets: &'a [u16],
    pub productions: &'a [u16],
    pub asked: &'a [u16; RECORDS],
    pub types: &'a [u16],
    pub templates: &'a [u16],
    ghost ready: { CheckerTables g.now t.now classes.now sets.now productions.now asked.now types.now templates.now },
}

// For the value: the grammar, the templates and the value, and the tables of the classes, with the sets of their characters, and of the types.
#[derive(Clone, Copy)]
pub struct ValueChecker<'a, 's> {
    pub g: &'a Stream<'s>,
    pub t: &'a Stream<'s>,
    pub v: &'a Stream<'s>,
    pub classes: &'a [u16],
    pub sets: &'a [u16],
    pub types: &'a [u16],
    ghost ready: { ValueTables g.now t.now v.now classes.now sets.now types.now },
}
