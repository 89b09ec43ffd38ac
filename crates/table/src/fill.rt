// Cells and columns: each cell from the words of the shorter stretches inside it.
ghost use Rattle.std.specs.Prelude.{◌≡◌, true, ◌+◌, ◌*◌, ◌≤◌, ◌<◌, min, length, get_or, set};
ghost use Rattle.derivation.specs.Grammar.{event_rule_count, pair_rule_count};
ghost use Rattle.derivation.specs.Derivations.{known};
ghost use Rattle.image.specs.Shown.{shown};
ghost use Rattle.bits.specs.Frame.{Framed, Zeros};
ghost use Rattle.marks.specs.Mark.{Apart, Told};
ghost use Rattle.marks.specs.Shown.{InUse, Lefts, Shown};
ghost use Rattle.table.specs.Table.{held, slot_of, table_words, Filled};
ghost use Rattle.table.specs.Fill.{pair_adds, leaf_adds, Summed, CellDone, Done, Parts, Nonzero};

use super::numbers::held_sum;
use super::splits::{slot, sum_splits};
use image::Grammar;

// Neighbouring rules are alike, so that one in so many is asked whether its symbols are crowded.
const SAMPLE: usize = 8;

fn clear_words(table: &mut [u32], base: usize, n: usize)
    requires { base + n ≤ length table.old }
    ensures { Framed table.old table.new base n × Zeros table.new base n }
{
    table[base..base + n].fill(0);
}

fn add_word(table: &mut [u32], at: usize, more: u32)
    requires { at < length table.old }
    ensures { table.new ≡ set table.old at (held (get_or table.old at 0 + more)) }
{
    table[at] = held_sum(table[at], more);
}

// Adds the event rules over one event to the words of its cell, which are 0.
fn add_leaves(grammar: Grammar<'_>, event: usize, table: &mut [u32], base: usize)
    requires image_in_bounds { base + (shown grammar).symbols ≤ length table.old }
    requires zeros { Zeros table.old base (shown grammar).symbols }
    ensures { Summed (leaf_adds (shown grammar.entry) event) (event_rule_count (shown grammar.entry))
        base (shown grammar.entry).symbols table.old table.new }
{
    for r in 0..grammar.leaf_count() {
        let l = lookup::leaf_of(grammar, r);
        if l.event == event {
            add_word(table, base + l.symbol, 1);
        }
    }
}

// Whether there are marks, and no split of a stretch from i has words that are not 0 in both its parts.
fn none_meet(lefts: &[u64], rights: &[u64], i: usize) -> bool
    requires { InUse lefts.now → (i < 96) × (131 ≤ length rights.now) × Told lefts.now × Told rights.now }
    ensures { result ≡ true → InUse lefts.now × Apart lefts.now i rights.now }
{
    lefts.len() >= marks::LEFTS && marks::apart(lefts, i, rights)
}

// Whether two symbols stand at so many splits of i to k that it is quicker not to look for them.
fn are_crowded(lefts: &[u64], rights: &[u64], left: usize, right: usize, i: usize, k: usize) -> bool
    requires left_bound { (left < 64) × (right < 64) × (i < k) }
    requires i_bound { InUse lefts.now → (i < 96) × (131 ≤ length rights.now) × Told lefts.now × Told rights.now }
{
    lefts.len() < marks::LEFTS || k - i < 4 * marks::meeting(lefts, i, left, rights, right) as usize
}

// Adds the pair rules over i to k, two events or more, to the words of its cell, which are 0.
fn add_pairs(
    grammar: Grammar<'_>,
    table: &mut [u32],
    lefts: &[u64],
    rights: &[u64],
    base: usize,
    i: usize,
    k: usize,
)
    requires i_bound { (i + 1 < k) × (k < 65536) × (table_words (shown grammar).symbols k ≤ length table.old) }
    requires base_value { base ≡ slot_of (shown grammar).symbols 0 i k }
    requires zeros { Zeros table.old base (shown grammar).symbols }
    requires parts { InUse lefts.now → Parts table.old (shown grammar).symbols lefts.now rights.now i k }
    ensures { Summed (pair_adds (shown grammar.entry) table.old i k) (pair_rule_count (shown grammar.entry))
        base (shown grammar.entry).symbols table.old table.new }
{
    if none_meet(lefts, rights, i) {
        return;
    }
    let symbols = grammar.symbol_count();
    let mut crowded = true;
    for b in 0..grammar.pair_count() {
        let p = lookup::pair_of(grammar, b);
        if b % SAMPLE == 0 {
            crowded = are_crowded(lefts, rights, p.left, p.right, i, k);
        }
        let more = sum_splits(
            table, lefts, rights, crowded, symbols, p.left, p.right, i, k,
        );
        add_word(table, base + p.symbol, more);
    }
}

// Works out one cell: over one event the event rules count, and over more the pair rules.
fn work_cell(
    grammar: Grammar<'_>,
    events: &[u16],
    table: &mut [u32],
    lefts: &[u64],
    rights: &[u64],
    i: usize,
    k: usize,
)
    requires done { Done (shown grammar) events.now table.old (i + 1) k }
    requires i_lt_k { (i < k) × (k ≤ length events.now) × (k < 65536) × (table_words (shown grammar).symbols k ≤ length table.old) }
    requires shown { Shown (shown grammar).symbols (known (shown grammar) events.now) lefts.now rights.now (i + 1) k }
    ensures { CellDone (shown grammar.entry) events.now i k table.old table.new }
{
    let symbols = grammar.symbol_count();
    let base = slot(symbols, 0, i, k);
    clear_words(table, base, symbols);
    if k == i + 1 {
        add_leaves(grammar, events[i] as usize, table, base);
    } else {
        add_pairs(grammar, table, lefts, rights, base, i, k);
    }
}

// The symbols whose words in a cell are not 0.
fn symbols_of(cell: &[u32]) -> u64
    requires { length cell.now ≤ 64 }
    ensures { Nonzero cell.now 0 (length cell.now) result }
{
    let mut word: u64 = 0;
    for (a, count) in cell.iter().enumerate() {
        word = bits::put_bit(word, a, u64::from(*count != 0));
    }
    word
}

// Works out cell (i, k) and, where there are marks, marks its symbols.
fn fill_cell(
    grammar: Grammar<'_>,
    events: &[u16],
    table: &mut [u32],
    lefts: &mut [u64],
    rights: &mut [u64],
    i: usize,
    k: usize,
)
    requires done { Done (shown grammar) events.now table.old (i + 1) k }
    requires i_lt_k { (i < k) × (k ≤ length events.now) × (k < 65536) × (table_words (shown grammar).symbols k ≤ length table.old) }
    requires shown { Shown (shown grammar).symbols (known (shown grammar) events.now) lefts.old rights.old (i + 1) k }
    ensures { CellDone (shown grammar.entry) events.now i k table.old table.new
        × Shown (shown grammar.entry).symbols (known (shown grammar.entry) events.now) lefts.new rights.new i k }
{
    work_cell(grammar, events, table, lefts, rights, i, k);
    if lefts.len() < marks::LEFTS {
        return;
    }
    let symbols = grammar.symbol_count();
    let base = slot(symbols, 0, i, k);
    let word = symbols_of(&table[base..base + symbols]);
    marks::mark_cell(lefts, rights, i, k, word);
}

// One column, from the shortest stretch to the longest.
fn fill_cells(
    grammar: Grammar<'_>,
    events: &[u16],
    table: &mut [u32],
    lefts: &mut [u64],
    rights: &mut [u64],
    k: usize,
)
    requires done { Done (shown grammar) events.now table.old k k }
    requires k_in_bounds { (k ≤ length events.now) × (length events.now < 65536) × (table_words (shown grammar).symbols (length events.now) ≤ length table.old) }
    requires shown { Shown (shown grammar).symbols (known (shown grammar) events.now) lefts.old rights.old k k }
    ensures { Done (shown grammar.entry) events.now table.new 0 k
        × Framed table.old table.new 0 (table_words (shown grammar.entry).symbols (length events.now))
        × Shown (shown grammar.entry).symbols (known (shown grammar.entry) events.now) lefts.new rights.new 0 k }
{
    for i in (0..k).rev() {
        fill_cell(grammar, events, table, lefts, rights, i, k);
    }
}

// The same with the marks of its right parts, where there are marks.
fn fill_column(grammar: Grammar<'_>, events: &[u16], table: &mut [u32], lefts: &mut [u64], k: usize)
    requires done { Done (shown grammar) events.now table.old k k }
    requires k_in_bounds { (k ≤ length events.now) × (length events.now < 65536) × (table_words (shown grammar).symbols (length events.now) ≤ length table.old) }
    requires lefts { InUse lefts.old → Lefts (shown grammar).symbols (known (shown grammar) events.now) lefts.old k k }
    ensures { Done (shown grammar.entry) events.now table.new 0 k
        × Framed table.old table.new 0 (table_words (shown grammar.entry).symbols (length events.now))
        × (InUse lefts.new → Lefts (shown grammar.entry).symbols (known (shown grammar.entry) events.now) lefts.new 0 k) }
{
    if lefts.len() < marks::LEFTS {
        let mut none = [0u64; 1];
        fill_cells(grammar, events, table, lefts, &mut none, k);
    } else {
        let mut rights = [0u64; marks::BLOCK];
        fill_cells(grammar, events, table, lefts, &mut rights, k);
    }
}

// All columns, one after the other.
pub fn fill_columns(grammar: Grammar<'_>, events: &[u16], table: &mut [u32], lefts: &mut [u64])
    requires events_len_bound { (length events.now < 65536) × (table_words (shown grammar).symbols (length events.now) ≤ length table.old) }
    requires events_len_bound_2 { InUse lefts.old → (length events.now ≤ 96) × Lefts (shown grammar).symbols (known (shown grammar) events.now) lefts.old 1 1 }
    ensures { Filled (shown grammar.entry) events.now table.old table.new }
{
    for k in 1..=events.len() {
        fill_column(grammar, events, table, lefts, k);
    }
}
