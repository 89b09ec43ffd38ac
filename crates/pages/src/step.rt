// From the script of a derivation to that of the next one, in the room where it stands.
ghost use Rattle.std.specs.Prelude.{◌≤◌, ◌<◌, length};
ghost use Rattle.image.specs.Shown.{shown};
ghost use Rattle.pages.specs.Step.{Begun, Stepped, SomeParted, PartsStepped};

use super::next::next_plan;
use lookup::Pair;
use table::Counts;

// Steps the two parts of a node by the rule p and the split j: the right part, or the left part, and then the right part is the first again.
#[cycle(step_parts_step_script)]
fn step_parts(counts: &Counts<'_>, p: Pair, i: usize, j: usize, k: usize, room: &mut [u16]) -> bool
    requires i_lt_j { (i < j) × (j < k) × (k ≤ length counts.now.events.now) × (k < 65536) }
    requires some_parted { SomeParted (shown counts.now.grammar) counts.now.events.now p i j k room.old }
    ensures { PartsStepped (shown counts.now.grammar) counts.now.events.now p i j k room.old result room.new }
{
    let mid = 4 * (j - i);
    if step_script(counts, p.right, j, k, &mut room[mid..]) {
        return true;
    }
    if step_script(counts, p.left, i, j, &mut room[2..]) {
        unrank::write_script(counts, p.right, j, k, 0, &mut room[mid..]);
        return true;
    }
    false
}

// Puts the next derivation of the symbol over i to k in the place of the one that the room begins with; answers whether there is one.
#[cycle(step_parts_step_script)]
pub fn step_script(counts: &Counts<'_>, symbol: usize, i: usize, k: usize, room: &mut [u16]) -> bool
    requires i_lt_k { (i < k) × (k ≤ length counts.now.events.now) × (k < 65536) }
    requires begun { Begun (shown counts.now.grammar) counts.now.events.now symbol i k room.old }
    ensures { Stepped (shown counts.now.grammar) counts.now.events.now symbol i k room.old result room.new }
{
    let Counts { grammar, table, .. } = *counts;
    let symbols = grammar.symbol_count();
    if table::word_of(table, symbols, symbol, i, k) == 1 {
        return false;
    }
    let leaves = grammar.leaf_count();
    let b = room[0] as usize - leaves;
    let j = room[1] as usize;
    let p = lookup::pair_of(grammar, b);
    if step_parts(counts, p, i, j, k, room) {
        return true;
    }
    match next_plan(*counts, symbol, i, k, b, j) {
        Some(plan) => {
            unrank::write_plan(counts, i, k, plan, room);
            true
        }
        None => false,
    }
}
