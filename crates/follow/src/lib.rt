// Along a script, down to shorter and shorter stretches: whether its words are the script of a reading.
#![tactic(auto)]

ghost use Rattle.std.specs.Prelude.{◌≡◌, ◌+◌, ◌-◌, ◌≤◌, ◌<◌, length};
ghost use Rattle.bits.specs.Truth.{Decides};
ghost use Rattle.derivation.specs.Tree.{LeafOk, NodeOk, script_word_count, Spells};
ghost use Rattle.derivation.specs.Reading.{IsReading};
ghost use Rattle.image.specs.Shown.{shown};

use image::Grammar;

// Whether rule r, with p in the split's place, is a derivation of the symbol over event i+1 alone.
fn is_leaf(
    grammar: Grammar<'_>,
    events: &[u16],
    symbol: usize,
    i: usize,
    r: usize,
    p: usize,
) -> bool
    requires { (i < length events.now) × (i < 65536) }
    ensures { Decides result (LeafOk (shown grammar.entry) events.now symbol i (i + 1) r p) }
{
    r < grammar.leaf_count()
        && p == i + 1
        && lookup::turns(grammar, r, symbol, usize::from(events[i]))
}

// Whether rule r and split j are the root of a derivation of the symbol over i to k, so far as the root goes.
fn is_node(grammar: Grammar<'_>, symbol: usize, i: usize, k: usize, r: usize, j: usize) -> bool
    ensures { Decides result (NodeOk (shown grammar.entry) symbol i k r j) }
{
    let leaves = grammar.leaf_count();
    leaves <= r
        && r - leaves < grammar.pair_count()
        && lookup::pair_of(grammar, r - leaves).symbol == symbol
        && i < j
        && j < k
}

// Whether the words are the script of a derivation of the symbol over events i+1 to k.
fn follows(
    grammar: Grammar<'_>,
    events: &[u16],
    symbol: usize,
    i: usize,
    k: usize,
    script: &[u16],
) -> bool
    requires { (i < k) × (k ≤ length events.now) × (k < 65536) × (length script.now ≡ script_word_count (k - i)) }
    ensures { Decides result (Spells (shown grammar.entry) events.now symbol i k script.now) }
{
    let r = usize::from(script[0]);
    let j = usize::from(script[1]);
    if k == i + 1 {
        return is_leaf(grammar, events, symbol, i, r, j);
    }
    if !is_node(grammar, symbol, i, k, r, j) {
        return false;
    }
    let p = lookup::pair_of(grammar, r - grammar.leaf_count());
    let mid = 4 * (j - i);
    follows(grammar, events, p.left, i, j, &script[2..mid])
        && follows(grammar, events, p.right, j, k, &script[mid..])
}

// Whether the words are the script of a reading.
pub fn is_reading(grammar: Grammar<'_>, events: &[u16], script: &[u16]) -> bool
    requires { length events.now < 65536 }
    ensures { Decides result (IsReading (shown grammar.entry) events.now script.now) }
{
    let n = events.len();
    let words = derivation::script_words(n);
    if script.len() != words {
        return false;
    }
    if n == 0 {
        return grammar.is_quiet();
    }
    follows(grammar, events, 0, 0, n, script)
}
