// A production, from the record of its head.
ghost use Rattle.records.specs.Productions.{ProductionNumber};

use stream::record::Record;

// The number of the production: a is its low byte, c its high byte.
pub fn number_of(production: Record) -> usize
    ensures { ProductionNumber production result }
{
    production.a as usize + 256 * (production.c as usize)
}
