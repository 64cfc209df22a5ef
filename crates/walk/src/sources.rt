// What a walk reads.
use stream::Stream;

// The three streams; the heads of productions, with the marks of the escaped classes before them, and of templates; where the children of a
// value stand, and their places.
// No ghost field holds what is asked of them (WalkLent): it has the marks as a witness, and a ghost field's fact may have one proof only.
#[derive(Clone, Copy)]
pub struct Sources<'a> {
    pub grammar: &'a Stream<'a>,
    pub templates: &'a Stream<'a>,
    pub value: &'a Stream<'a>,
    pub production_heads: &'a [u16],
    pub template_heads: &'a [u16],
    pub firsts: &'a [u16],
    pub places: &'a [u16],
}
