// From the script of a reading to its number. The table has to be filled.
#![tactic(auto)]

mod before; // what stands before a derivation

ghost use Rattle.std.specs.Prelude.{◌≤◌, ◌<◌, length};
ghost use Rattle.derivation.specs.Tree.{Spells};
ghost use Rattle.derivation.specs.Reading.{IsReading};
ghost use Rattle.derivation.specs.Derivations.{NumberOf, RankOf};
ghost use Rattle.image.specs.Shown.{shown};
ghost use Rattle.rank.specs.Rank.{HeldOf};

use before::node_rank;
use table::Counts;

// The number of a script among those of the symbol over i to k, held at the limit. Over one event there is no other: no two event rules are
// the same.
fn rank_script(counts: &Counts<'_>, symbol: usize, i: usize, k: usize, script: &[u16]) -> u32
    requires i_lt_k { (i < k) × (k ≤ length counts.now.events.now) × (k < 65536) }
    requires spells { Spells (shown counts.now.grammar) counts.now.events.now symbol i k script.now }
    ensures { HeldOf (RankOf (shown counts.now.grammar) counts.now.events.now symbol i k script.now) result }
{
    if k == i + 1 {
        return 0;
    }
    let Counts { grammar, table, .. } = *counts;
    let leaves = grammar.leaf_count();
    let b = script[0] as usize - leaves;
    let j = script[1] as usize;
    let p = lookup::pair_of(grammar, b);
    let mid = 4 * (j - i);
    let first = rank_script(counts, p.left, i, j, &script[2..mid]);
    let second = rank_script(counts, p.right, j, k, &script[mid..]);
    node_rank(grammar, table, i, k, b, j, first, second)
}

// The number of the reading with this script, held at the limit; an empty record has one reading at most.
pub fn rank_reading(counts: Counts<'_>, script: &[u16]) -> u32
    requires events_len_bound { length counts.events.now < 65536 }
    requires reading { IsReading (shown counts.grammar) counts.events.now script.now }
    ensures { HeldOf (NumberOf (shown counts.entry.grammar) counts.entry.events.now script.now) result }
{
    if counts.events.is_empty() {
        0
    } else {
        rank_script(&counts, 0, 0, counts.events.len(), script)
    }
}
