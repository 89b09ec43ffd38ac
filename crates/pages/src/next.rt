// What comes behind a rule and a split: the next ones by which there is a derivation.
ghost use Rattle.std.specs.Prelude.{◌≡◌, ◌≤◌, ◌<◌, length};
ghost use Rattle.derivation.specs.Grammar.{pair_rule_count, pair_rule};
ghost use Rattle.image.specs.Shown.{shown};
ghost use Rattle.table.specs.Fill.{InReach};
ghost use Rattle.pages.specs.Step.{first_by, SplitIs, NextIs};

use lookup::Pair;
use table::Counts;
use unrank::choose::{Part, Plan};

// The first split from `from` on with which two symbols add something.
fn next_split(
    table: &[u32],
    symbols: usize,
    left: usize,
    right: usize,
    i: usize,
    k: usize,
    from: usize,
) -> Option<usize>
    requires { InReach table.now symbols left right i k × (i < from) × (from ≤ k) }
    ensures { SplitIs table.now symbols left right i k from result }
{
    (from..k).find(|j| table::split_count(table, symbols, left, right, i, k, *j) != 0)
}

// The first derivation by this rule and split: both of its parts are number 0.
fn first_by(rule: usize, split: usize, p: Pair) -> Plan
    ensures { result ≡ first_by rule split p.left p.right }
{
    Plan {
        rule,
        split,
        left: Part {
            symbol: p.left,
            number: 0,
        },
        right: Part {
            symbol: p.right,
            number: 0,
        },
    }
}

// What follows the last derivation of the symbol over i to k by pair rule b and the split j: the first with a later split or rule. Rules rise, so
// those of a symbol stand together.
pub fn next_plan(
    counts: Counts<'_>,
    symbol: usize,
    i: usize,
    k: usize,
    b: usize,
    j: usize,
) -> Option<Plan>
    requires i_lt_j { (i < j) × (j < k) × (k ≤ length counts.events.now) × (k < 65536) }
    requires b_bound { (b < pair_rule_count (shown counts.grammar)) × ((pair_rule (shown counts.grammar) b).symbol ≡ symbol) }
    ensures { NextIs (shown counts.entry.grammar) counts.entry.events.now symbol i k b j result }
{
    let Counts { grammar, table, .. } = counts;
    let symbols = grammar.symbol_count();
    let leaves = grammar.leaf_count();
    let mut from = j + 1;
    for c in b..grammar.pair_count() {
        let p = lookup::pair_of(grammar, c);
        if p.symbol != symbol {
            return None;
        }
        match next_split(table, symbols, p.left, p.right, i, k, from) {
            Some(split) => return Some(first_by(leaves + c, split, p)),
            None => from = i + 1,
        }
    }
    None
}
