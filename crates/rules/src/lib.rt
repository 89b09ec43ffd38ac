// Tests on the rules of an image: that no symbol is N or more, and that each rule is above its predecessor of the same kind.
#![tactic(auto)]

ghost use Rattle.std.specs.Prelude.{◌≡◌};
ghost use Rattle.bits.specs.Truth.{Decides};
ghost use Rattle.derivation.specs.Grammar.{rule_total};
ghost use Rattle.derivation.specs.Sound.{SymbolsFit, as_numbers, Rises};
ghost use Rattle.layout.specs.Layout.{decode, Whole};
ghost use Rattle.layout.specs.Present.{HasRule};
ghost use Rattle.rules.specs.Tests.{numbers, SearchIs};

// ---- one rule

// Rules of one kind compare by symbol, and then by what follows.
#[derive(Clone, Copy, PartialEq, Eq, PartialOrd, Ord)]
enum Rule {
    Leaf {
        symbol: usize,
        event: usize,
    },
    Pair {
        symbol: usize,
        left: usize,
        right: usize,
    },
}

fn rule_of(image: &[u8], r: usize) -> Rule
    requires { HasRule image.now r }
    ensures { numbers result ≡ as_numbers (decode image.now) r }
{
    let symbol = layout::symbol_of(image, r);
    if r < layout::leaf_count(image) {
        Rule::Leaf {
            symbol,
            event: layout::event_of(image, r),
        }
    } else {
        Rule::Pair {
            symbol,
            left: layout::left_of(image, r),
            right: layout::right_of(image, r),
        }
    }
}

// Whether no symbol of rule r is N or more.
fn symbols_fit(image: &[u8], r: usize) -> bool
    requires { HasRule image.now r }
    ensures { Decides result (SymbolsFit (decode image.now) r) }
{
    let n = layout::symbol_count(image);
    match rule_of(image, r) {
        Rule::Leaf { symbol, .. } => symbol < n,
        Rule::Pair {
            symbol,
            left,
            right,
        } => symbol.max(left.max(right)) < n,
    }
}

// Whether rule r is above its predecessor of the same kind, if it has one. Every pair rule is above every event rule.
fn rises(image: &[u8], r: usize) -> bool
    requires { HasRule image.now r }
    ensures { Decides result (Rises (decode image.now) r) }
{
    r == 0 || rule_of(image, r - 1) < rule_of(image, r)
}

// ---- all rules

// The number of the first rule with a symbol that is N or more, if there is one.
pub fn first_unfit(image: &[u8]) -> Option<usize>
    requires { Whole image.now }
    ensures { SearchIs (rule_total (decode image.now)) (SymbolsFit (decode image.now)) result }
{
    (0..layout::rule_count(image)).find(|r| !symbols_fit(image, *r))
}

// The number of the first rule that is not above its predecessor of the same kind, if there is one.
pub fn first_unordered(image: &[u8]) -> Option<usize>
    requires { Whole image.now }
    ensures { SearchIs (rule_total (decode image.now)) (Rises (decode image.now)) result }
{
    (0..layout::rule_count(image)).find(|r| !rises(image, *r))
}
