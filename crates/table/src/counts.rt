// A record with the table that was filled for it: a service that reads counts takes the three together, and no caller shows the fact twice.
ghost use Rattle.layout.specs.Layout.{decode};
ghost use Rattle.table.specs.Fill.{CountsIn};

use image::Grammar;

#[derive(Clone, Copy)]
pub struct Counts<'a> {
    pub grammar: Grammar<'a>,
    pub events: &'a [u16],
    pub table: &'a [u32],
    pub ghost counts: { CountsIn (decode grammar.bytes.now) events.now table.now },
}
