// Dead symbols: whether every symbol derives some events by the rules, and whether every one can be reached from symbol 0 through them. Each is the
// search for a set of symbols, a word, which goes round the pair rules until a round adds nothing.
#![tactic(auto)]

ghost use Rattle.std.specs.Prelude.{◌≤◌};
ghost use Rattle.bits.specs.Truth.{Every, Decides};
ghost use Rattle.bits.specs.Word.{Has};
ghost use Rattle.derivation.specs.Grammar.{rule_total};
ghost use Rattle.derivation.specs.Sound.{Sound};
ghost use Rattle.derivation.specs.Live.{Live};
ghost use Rattle.layout.specs.Layout.{decode, Whole};
ghost use Rattle.layout.specs.Present.{HasPair};
ghost use Rattle.live.specs.declared.Sought.TheVariants.{Deriving, Reachable};
ghost use Rattle.live.specs.Search.{Meets, Stays, Starts, Grown, Exactly};

// What is sought: the symbols that derive some events, or those that can be reached.
#[derive(Clone, Copy)]
enum Sought {
    Deriving,
    Reachable,
}

// ---- one pair rule

// The set with the symbol of rule r, where both its parts are in it.
fn with_symbol(image: &[u8], r: usize, set: u64) -> u64
    requires { HasPair image.now r × Sound (decode image.now) }
    ensures { Grown Deriving (decode image.now) set (Stays Deriving (decode image.now) set r) result }
{
    let left = layout::left_of(image, r);
    let right = layout::right_of(image, r);
    if bits::bit_of(set, left) == 1 && bits::bit_of(set, right) == 1 {
        bits::put_bit(set, layout::symbol_of(image, r), 1)
    } else {
        set
    }
}

// The set with both parts of rule r, where its symbol is in it.
fn with_parts(image: &[u8], r: usize, set: u64) -> u64
    requires { HasPair image.now r × Sound (decode image.now) }
    ensures { Grown Reachable (decode image.now) set (Stays Reachable (decode image.now) set r) result }
{
    if bits::bit_of(set, layout::symbol_of(image, r)) == 1 {
        let left = layout::left_of(image, r);
        let right = layout::right_of(image, r);
        let more = bits::put_bit(set, left, 1);
        bits::put_bit(more, right, 1)
    } else {
        set
    }
}

// The same for either search.
fn with_rule(image: &[u8], r: usize, set: u64, sought: Sought) -> u64
    requires { HasPair image.now r × Sound (decode image.now) }
    ensures { Grown sought (decode image.now) set (Stays sought (decode image.now) set r) result }
{
    match sought {
        Sought::Deriving => with_symbol(image, r, set),
        Sought::Reachable => with_parts(image, r, set),
    }
}

// ---- all rules

// One round of the pair rules, each of which has what those before it added.
fn with_rules(image: &[u8], set: u64, sought: Sought) -> u64
    requires { Whole image.now × Sound (decode image.now) }
    ensures { Grown sought (decode image.now) set (Every (rule_total (decode image.now)) (Stays sought (decode image.now) set)) result }
{
    let mut more = set;
    for r in layout::leaf_count(image)..layout::rule_count(image) {
        more = with_rule(image, r, more, sought);
    }
    more
}

// The symbols of the event rules.
fn event_symbols(image: &[u8]) -> u64
    requires { Whole image.now × Sound (decode image.now) }
    ensures { Starts Deriving (decode image.now) result }
{
    let mut set = 0;
    for r in 0..layout::leaf_count(image) {
        set = bits::put_bit(set, layout::symbol_of(image, r), 1);
    }
    set
}

// What a search starts with.
fn start(image: &[u8], sought: Sought) -> u64
    requires { Whole image.now × Sound (decode image.now) }
    ensures { Starts sought (decode image.now) result }
{
    match sought {
        Sought::Deriving => event_symbols(image),
        Sought::Reachable => bits::put_bit(0, 0, 1),
    }
}

// ---- all rounds

// The set of all that is sought.
fn search(image: &[u8], sought: Sought) -> u64
    requires { Whole image.now × Sound (decode image.now) }
    ensures { Exactly (Meets sought (decode image.now)) result }
{
    let mut set = start(image, sought);
    loop {
        let more = with_rules(image, set, sought);
        if more == set {
            return more;
        }
        set = more;
    }
}

// Whether the set has every number below n.
fn has_all(set: u64, n: usize) -> bool
    requires { n ≤ 64 }
    ensures { Decides result (Every n (Has set)) }
{
    (0..n).all(|a| bits::bit_of(set, a) == 1)
}

// Whether every symbol is among those that are sought.
fn all_meet(image: &[u8], sought: Sought) -> bool
    requires { Whole image.now × Sound (decode image.now) }
    ensures { Decides result (Every (decode image.now).symbols (Meets sought (decode image.now))) }
{
    has_all(search(image, sought), layout::symbol_count(image))
}

// Whether no symbol is dead.
pub fn all_live(image: &[u8]) -> bool
    requires { Whole image.now × Sound (decode image.now) }
    ensures { Decides result (Every (decode image.now).symbols (Live (decode image.now))) }
{
    all_meet(image, Sought::Deriving) && all_meet(image, Sought::Reachable)
}
