// The library's services over words on the stack, whose bytes are then lent memory's.
#![tactic(auto)]

pub mod charts; // a judgement
pub mod tables; // counting and reading
