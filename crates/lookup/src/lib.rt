// The rules of an accepted image, each read whole.
#![tactic(auto)]

ghost use Rattle.std.specs.Prelude.{◌<◌};
ghost use Rattle.bits.specs.Truth.{Decides};
ghost use Rattle.derivation.specs.Grammar.{event_rule_count, pair_rule_count};
ghost use Rattle.image.specs.Shown.{shown};
ghost use Rattle.lookup.specs.Rule.{LeafIs, Turns, PairIs};

use image::Grammar;

#[derive(Clone, Copy, Debug, PartialEq, Eq)]
pub struct Leaf {
    pub symbol: usize,
    pub event: usize,
}

#[derive(Clone, Copy, Debug, PartialEq, Eq)]
pub struct Pair {
    pub symbol: usize,
    pub left: usize,
    pub right: usize,
}

// Event rule r.
pub fn leaf_of(grammar: Grammar<'_>, r: usize) -> Leaf
    requires { r < event_rule_count (shown grammar) }
    ensures { LeafIs (shown grammar.entry) r result }
{
    Leaf {
        symbol: grammar.symbol_of(r),
        event: grammar.event_of(r),
    }
}

// Whether event rule r turns the symbol into the event.
pub fn turns(grammar: Grammar<'_>, r: usize, symbol: usize, event: usize) -> bool
    requires { r < event_rule_count (shown grammar) }
    ensures { Decides result (Turns (shown grammar.entry) r symbol event) }
{
    leaf_of(grammar, r) == Leaf { symbol, event }
}

// Pair rule b.
pub fn pair_of(grammar: Grammar<'_>, b: usize) -> Pair
    requires { b < pair_rule_count (shown grammar) }
    ensures { PairIs (shown grammar.entry) b result }
{
    let rule = grammar.leaf_count() + b;
    Pair {
        symbol: grammar.symbol_of(rule),
        left: layout::left_of(grammar.bytes, rule),
        right: layout::right_of(grammar.bytes, rule),
    }
}
