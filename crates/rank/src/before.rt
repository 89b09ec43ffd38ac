// What stands before a derivation: those by earlier rules, and by its own rule those with earlier splits and earlier left parts.
ghost use Rattle.std.specs.Prelude.{◌≡◌, ◌≤◌, ◌<◌, length};
ghost use Rattle.bits.specs.Sum.{sum, between};
ghost use Rattle.derivation.specs.Grammar.{pair_rule_count};
ghost use Rattle.image.specs.Shown.{shown};
ghost use Rattle.table.specs.Table.{held, table_words};
ghost use Rattle.table.specs.Fill.{split_adds, pair_adds, InReach};
ghost use Rattle.rank.specs.Rank.{place_of};

use image::Grammar;
use table::numbers::{held_product, held_sum};

// What two symbols add over i to k with the splits before `to`.
fn splits_before(
    table: &[u32],
    symbols: usize,
    left: usize,
    right: usize,
    i: usize,
    k: usize,
    to: usize,
) -> u32
    requires { InReach table.now symbols left right i k × (i < to) × (to ≤ k) }
    ensures { result ≡ held (between i to (split_adds table.now symbols left right i k)) }
{
    let mut total: u32 = 0;
    for j in i + 1..to {
        let more = table::split_count(table, symbols, left, right, i, k, j);
        total = held_sum(total, more);
    }
    total
}

// What the pair rules before rule b add to the word of the symbol over i to k.
fn rules_before(
    grammar: Grammar<'_>,
    table: &[u32],
    symbol: usize,
    i: usize,
    k: usize,
    b: usize,
) -> u32
    requires i_lt_k { (i < k) × (k < 65536) × (table_words (shown grammar).symbols k ≤ length table.now) }
    requires b_bound { b ≤ pair_rule_count (shown grammar) }
    ensures { result ≡ held (sum b (pair_adds (shown grammar.entry) table.now i k symbol)) }
{
    let symbols = grammar.symbol_count();
    let mut total: u32 = 0;
    for c in 0..b {
        let p = lookup::pair_of(grammar, c);
        if p.symbol == symbol {
            let share = splits_before(table, symbols, p.left, p.right, i, k, k);
            total = held_sum(total, share);
        }
    }
    total
}

// The number of a derivation over i to k by pair rule b and the split j, held at the limit, from those of its two parts.
pub fn node_rank(
    grammar: Grammar<'_>,
    table: &[u32],
    i: usize,
    k: usize,
    b: usize,
    j: usize,
    first: u32,
    second: u32,
) -> u32
    requires i_lt_j { (i < j) × (j < k) × (k < 65536) × (table_words (shown grammar).symbols k ≤ length table.now) }
    requires b_bound { b < pair_rule_count (shown grammar) }
    ensures { result ≡ held (place_of (shown grammar.entry) table.now i k b j first second) }
{
    let symbols = grammar.symbol_count();
    let p = lookup::pair_of(grammar, b);
    let rules = rules_before(grammar, table, p.symbol, i, k, b);
    let splits = splits_before(table, symbols, p.left, p.right, i, k, j);
    let count = table::word_of(table, symbols, p.right, j, k);
    let lefts = held_product(first, count);
    held_sum(held_sum(rules, splits), held_sum(lefts, second))
}
