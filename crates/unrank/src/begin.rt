// Where the rules of a symbol begin, by halving: rules of one kind rise.
ghost use Rattle.image.specs.Shown.{shown};
ghost use Rattle.unrank.specs.Choice.{OneKind, Passed};

use image::Grammar;

// Of the rules from `from` up to `to`, which are of one kind, those before this one have lesser symbols.
pub fn first_rule(grammar: Grammar<'_>, from: usize, to: usize, symbol: usize) -> usize
    requires { OneKind (shown grammar) from to }
    ensures { Passed (shown grammar.entry) symbol from to result }
{
    let mut low = from;
    let mut high = to;
    while low < high {
        let mid = low + (high - low) / 2;
        if grammar.symbol_of(mid) < symbol {
            low = mid + 1;
        } else {
            high = mid;
        }
    }
    low
}
