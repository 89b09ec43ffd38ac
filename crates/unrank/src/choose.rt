// In whose share a number falls: the rules in their order, and for a pair rule its splits in theirs.
ghost use Rattle.std.specs.Prelude.{◌+◌, ◌≤◌, ◌<◌, length};
ghost use Rattle.bits.specs.Sum.{sum};
ghost use Rattle.derivation.specs.Derivations.{count as number};
ghost use Rattle.derivation.specs.Grammar.{event_rule_count, pair_rule_count};
ghost use Rattle.image.specs.Shown.{shown};
ghost use Rattle.table.specs.Table.{limit};
ghost use Rattle.table.specs.Fill.{pair_adds, leaf_adds, InReach};
ghost use Rattle.unrank.specs.Choice.{Picked, Chosen, ChosenLeaf, Planned};

use super::begin::first_rule;
use image::Grammar;
use table::Counts;

// A split, and a place in its share.
#[derive(Clone, Copy, Debug, PartialEq, Eq)]
pub struct Share {
    pub split: usize,
    pub rest: u32,
}

// The split in whose share a place falls; or how far past them all it is.
fn pick_split(
    table: &[u32],
    symbols: usize,
    left: usize,
    right: usize,
    i: usize,
    k: usize,
    rank: u32,
) -> Result<Share, u32>
    requires { InReach table.now symbols left right i k }
    ensures { Picked table.now symbols left right i k rank result }
{
    let mut rest = rank;
    for j in i + 1..k {
        let share = table::split_count(table, symbols, left, right, i, k, j);
        if rest < share {
            return Ok(Share { split: j, rest });
        }
        rest -= share;
    }
    Err(rest)
}

// The pair rule in whose share a place falls, and there the split.
#[derive(Clone, Copy, Debug, PartialEq, Eq)]
pub struct Choice {
    pub pair: usize,
    pub share: Share,
}

fn choose_pair(counts: Counts<'_>, symbol: usize, i: usize, k: usize, rank: u32) -> Choice
    requires i_lt_k { (i < k) × (k ≤ length counts.events.now) × (k < 65536) }
    requires rank_bound { rank < sum (pair_rule_count (shown counts.grammar)) (pair_adds (shown counts.grammar) counts.table.now i k symbol) }
    ensures { Chosen (shown counts.entry.grammar) counts.entry.table.now symbol i k rank result }
{
    let Counts { grammar, table, .. } = counts;
    let symbols = grammar.symbol_count();
    let leaves = grammar.leaf_count();
    let pairs = grammar.pair_count();
    let first = first_rule(grammar, leaves, leaves + pairs, symbol) - leaves;
    let mut rest = rank;
    for b in first..pairs {
        let p = lookup::pair_of(grammar, b);
        if p.symbol == symbol {
            match pick_split(table, symbols, p.left, p.right, i, k, rest) {
                Ok(share) => return Choice { pair: b, share },
                Err(past) => rest = past,
            }
        }
    }
    unreachable!()
}

// The event rule that is place `rank` of the symbol's word over one event.
pub fn choose_leaf(grammar: Grammar<'_>, event: usize, symbol: usize, rank: u32) -> usize
    requires { rank < sum (event_rule_count (shown grammar)) (leaf_adds (shown grammar) event symbol) }
    ensures { ChosenLeaf (shown grammar.entry) event symbol rank result × (result < 65536) }
{
    let leaves = grammar.leaf_count();
    let first = first_rule(grammar, 0, leaves, symbol);
    let mut rest = rank;
    for r in first..leaves {
        if lookup::turns(grammar, r, symbol, event) {
            if rest == 0 {
                return r;
            }
            rest -= 1;
        }
    }
    unreachable!()
}

// Which derivation a part of another one is: its symbol, and its number among those of the symbol over its stretch.
#[derive(Clone, Copy, Debug, PartialEq, Eq)]
pub struct Part {
    pub symbol: usize,
    pub number: u32,
}

// The root of a derivation over two events or more, and its parts.
#[derive(Clone, Copy, Debug, PartialEq, Eq)]
pub struct Plan {
    pub rule: usize,
    pub split: usize,
    pub left: Part,
    pub right: Part,
}

// The plan of derivation number `rank` of the symbol over i to k.
pub fn make_plan(counts: Counts<'_>, symbol: usize, i: usize, k: usize, rank: u32) -> Plan
    requires i_bound { (i + 1 < k) × (k ≤ length counts.events.now) × (k < 65536) }
    requires rank_lt_limit { (rank < limit) × (rank < number (shown counts.grammar) counts.events.now symbol i k) }
    ensures { Planned (shown counts.entry.grammar) counts.entry.events.now symbol i k rank result }
{
    let Counts { grammar, table, .. } = counts;
    let c = choose_pair(counts, symbol, i, k, rank);
    let Share { split, rest } = c.share;
    let p = lookup::pair_of(grammar, c.pair);
    let count = table::word_of(table, grammar.symbol_count(), p.right, split, k);
    let first = rest / count;
    let second = rest % count;
    Plan {
        rule: grammar.leaf_count() + c.pair,
        split,
        left: Part {
            symbol: p.left,
            number: first,
        },
        right: Part {
            symbol: p.right,
            number: second,
        },
    }
}
