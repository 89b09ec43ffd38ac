// From a number to the script of the reading that has it. The table has to be filled.
#![tactic(auto)]

mod begin; // where the rules of a symbol begin
pub mod choose; // which rule and split a number is by

ghost use Rattle.std.specs.Prelude.{◌≡◌, ◌∷◌, ◌++◌, ◌-◌, ◌≤◌, ◌<◌, length, get_or, drop};
ghost use Rattle.derivation.specs.Tree.{script_word_count, script as spell};
ghost use Rattle.derivation.specs.Reading.{quiet, spelling};
ghost use Rattle.derivation.specs.Derivations.{derivations, readings, count as number};
ghost use Rattle.derivation.specs.Numbering.{none};
ghost use Rattle.image.specs.Shown.{shown};
ghost use Rattle.table.specs.Table.{limit};
ghost use Rattle.unrank.specs.Choice.{PlanOk, plan_tree};

use choose::{Plan, choose_leaf, make_plan};
use table::Counts;

// The two words of a node. Two stores: a copy from an array on the stack would keep the writer's last call from being a jump.
fn put_root(room: &mut [u16], rule: usize, split: usize)
    requires { (2 ≤ length room.old) × (rule < 65536) × (split < 65536) }
    ensures { room.new ≡ rule ∷ split ∷ drop 2 room.old }
{
    room[0] = rule as u16;
    room[1] = split as u16;
}

// Writes the script of the derivation that a plan is of, over i to k, to the front of the room: the left part behind the root, and the
// right part from the middle of the room onward.
#[cycle(write_plan_write_script)]
pub fn write_plan(counts: &Counts<'_>, i: usize, k: usize, p: Plan, room: &mut [u16])
    requires k_in_bounds { (k ≤ length counts.now.events.now) × (k < 65536) × (script_word_count (k - i) ≤ length room.old) }
    requires plan_ok { PlanOk (shown counts.now.grammar) counts.now.events.now i k p }
    ensures { room.new ≡
        spell (plan_tree (shown counts.now.grammar) counts.now.events.now i k p) ++ drop (script_word_count (k - i)) room.old }
{
    let Plan {
        rule,
        split,
        left,
        right,
    } = p;
    put_root(room, rule, split);
    write_script(counts, left.symbol, i, split, left.number, &mut room[2..]);
    let mid = 4 * (split - i);
    write_script(
        counts,
        right.symbol,
        split,
        k,
        right.number,
        &mut room[mid..],
    );
}

// Writes the script of derivation number `rank` of the symbol over i to k to the front of the room.
#[cycle(write_plan_write_script)]
pub fn write_script(
    counts: &Counts<'_>,
    symbol: usize,
    i: usize,
    k: usize,
    rank: u32,
    room: &mut [u16],
)
    requires i_lt_k { (i < k) × (k ≤ length counts.now.events.now) × (k < 65536) × (script_word_count (k - i) ≤ length room.old) }
    requires rank_lt_limit { (rank < limit) × (rank < number (shown counts.now.grammar) counts.now.events.now symbol i k) }
    ensures { room.new ≡
        spell (get_or (derivations (shown counts.now.grammar) counts.now.events.now symbol i k) rank none)
        ++ drop (script_word_count (k - i)) room.old }
{
    if k == i + 1 {
        let event = usize::from(counts.events[i]);
        let rule = choose_leaf(counts.grammar, event, symbol, rank);
        put_root(room, rule, k);
    } else {
        let p = make_plan(*counts, symbol, i, k, rank);
        write_plan(counts, i, k, p, room);
    }
}

// Writes the script of reading number k to the front of the room; that of an empty record has no words.
pub fn write_reading(counts: Counts<'_>, k: u32, room: &mut [u16])
    requires events_len_bound { (length counts.events.now < 65536) × (script_word_count (length counts.events.now) ≤ length room.old) }
    requires k_lt_limit { (k < limit) × (k < length (readings (shown counts.grammar) counts.events.now)) }
    ensures { room.new ≡
        spelling (get_or (readings (shown counts.entry.grammar) counts.entry.events.now) k quiet)
        ++ drop (script_word_count (length counts.entry.events.now)) room.old }
{
    let n = counts.events.len();
    if n != 0 {
        write_script(&counts, 0, 0, n, k, room);
    }
}
