// Cells and columns: each column from the words of the older ones as they stand.
#![tactic(auto)]

ghost use Rattle.std.specs.Prelude.{◌≡◌, ◌+◌, ◌≤◌, ◌<◌, ◌^◌, length, IfSome};
ghost use Rattle.derivation.specs.Grammar.{event_rule_count};
ghost use Rattle.derivation.specs.Chart.{cells_before, cell_at, cells};
ghost use Rattle.image.specs.Shown.{shown};
ghost use Rattle.groups.specs.Group.{Grouped};
ghost use Rattle.columns.specs.Fill.{CellFilled, Standing, Pushed, Columns};
ghost use Rattle.columns.specs.NewColumn.{rd, in_chart, ColumnFilled};
ghost use Rattle.bits.specs.Frame.{Framed, Zeros};
ghost use Rattle.kernel.specs.Fire.{Heard};
ghost use Rattle.marks.specs.Shown.{InUse, Lefts, Shown};

use groups::Groups;
use image::Grammar;
use kernel::Fired;

// The word of cell (i, k).
pub fn read_cell(chart: &[u64], i: usize, k: usize) -> u64
    requires { (i < k) × (k < 65536) × (cell_at i k < length chart.now) }
    ensures { result ≡ rd chart.now i k }
{
    let at = derivation::cell_at(i, k);
    chart[at]
}

// Works out cell (i, k) by the marks, all splits at once, stores it and marks its symbols.
fn fill_cell(
    grammar: Grammar<'_>,
    grouped: &Groups,
    lefts: &mut [u64],
    rights: &mut [u64],
    chart: &mut [u64],
    i: usize,
    k: usize,
) -> u64
    requires grouped { Grouped (shown grammar) grouped.now }
    requires i_lt_k { (i < k) × (k < 65536) × (cells_before k + k ≤ length chart.old) }
    requires in_use { InUse lefts.old × Shown 64 (in_chart chart.old) lefts.old rights.old (i + 1) k }
    ensures { CellFilled (shown grammar.entry) i k chart.old chart.new result × (result ≤ 2 ^ 24)
        × Shown 64 (in_chart chart.new) lefts.new rights.new i k }
{
    let f = kernel::fire_marks(grammar, grouped, lefts, i, rights);
    let at = derivation::cell_at(i, k);
    chart[at] = f.word;
    marks::mark_cell(lefts, rights, i, k, f.word);
    f.count
}

// Clears n words from first on.
pub fn clear_cells(chart: &mut [u64], first: usize, n: usize)
    requires { first + n ≤ length chart.old }
    ensures { Framed chart.old chart.new first n × Zeros chart.new first n }
{
    chart[first..first + n].fill(0);
}

// All symbols of some cells.
fn standing(words: &[u64]) -> u64
    ensures { Standing words.now result }
{
    words.iter().fold(0, |all, word| all | word)
}

// Split j of the cells that end at k: what the right part (j, k) makes with each left part (i, j) goes into cell (i, k). What the rules of a left
// symbol make is worked out once for all left parts that have it, into `made`. Answers the split's firings.
fn push_split(
    grammar: Grammar<'_>,
    grouped: &Groups,
    made: &mut [Fired; 64],
    chart: &mut [u64],
    j: usize,
    k: usize,
) -> u64
    requires grouped { Grouped (shown grammar) grouped.now }
    requires j_lt_k { (0 < j) × (j < k) × (k < 65536) × (cells_before k + k ≤ length chart.old) }
    ensures { Pushed (shown grammar.entry) j k chart.old chart.new j result × (result ≤ 2 ^ 24) }
{
    let right = read_cell(chart, j, k);
    if right == 0 {
        return 0;
    }
    let first = derivation::cell_at(0, j);
    let (older, column) = chart.split_at_mut(derivation::cell_at(0, k));
    let lefts = &older[first..first + j];
    kernel::make_ready(grammar, grouped, standing(lefts), right, made);
    let mut count: u64 = 0;
    for (i, left) in lefts.iter().enumerate() {
        let word = column[i];
        let f = kernel::fire_pairs(grammar, made, *left, right, Fired { word, count });
        column[i] = f.word;
        count = f.count;
    }
    count
}

// Column q without marks: the cells that end at q + 1, split after split from the last down, so that each right part is whole when it is pushed.
fn push_cells(
    grammar: Grammar<'_>,
    grouped: &Groups,
    heard: Option<&[u64; 16]>,
    event: usize,
    chart: &mut [u64],
    q: usize,
) -> u64
    requires grouped { Grouped (shown grammar) grouped.now }
    requires q_bound { (q + 1 < 65536) × (cell_at q (q + 1) < length chart.old) }
    requires heard { IfSome heard (λ h. Heard (shown grammar) h.now (event_rule_count (shown grammar))) }
    ensures { ColumnFilled (shown grammar.entry) event chart.old chart.new q result × (result ≤ 2 ^ 41) }
{
    let k = q + 1;
    let leaf = kernel::fire_event(grammar, heard, event);
    let first = derivation::cell_at(0, k);
    clear_cells(chart, first, q);
    let last = first + q;
    chart[last] = leaf.word;
    let mut made = [Fired::NONE; 64];
    let mut count = leaf.count;
    for j in (1..k).rev() {
        count += push_split(grammar, grouped, &mut made, chart, j, k);
    }
    count
}

// Column q by marks: the cells from the last down. Where its event makes no symbol, no stretch that ends with it has one.
fn fill_cells(
    grammar: Grammar<'_>,
    grouped: &Groups,
    heard: Option<&[u64; 16]>,
    lefts: &mut [u64],
    rights: &mut [u64],
    event: usize,
    chart: &mut [u64],
    q: usize,
) -> u64
    requires grouped { Grouped (shown grammar) grouped.now }
    requires q_bound { (q + 1 < 65536) × (cell_at q (q + 1) < length chart.old) }
    requires in_use { InUse lefts.old × Shown 64 (in_chart chart.old) lefts.old rights.old (q + 1) (q + 1) }
    requires heard { IfSome heard (λ h. Heard (shown grammar) h.now (event_rule_count (shown grammar))) }
    ensures { ColumnFilled (shown grammar.entry) event chart.old chart.new q result × (result ≤ 2 ^ 41)
        × Shown 64 (in_chart chart.new) lefts.new rights.new 0 (q + 1) }
{
    let k = q + 1;
    let leaf = kernel::fire_event(grammar, heard, event);
    let at = derivation::cell_at(q, k);
    chart[at] = leaf.word;
    marks::mark_cell(lefts, rights, q, k, leaf.word);
    if leaf.word == 0 {
        let from = derivation::cell_at(0, k);
        clear_cells(chart, from, q);
        return leaf.count;
    }
    let mut count = leaf.count;
    for i in (0..q).rev() {
        count += fill_cell(grammar, grouped, lefts, rights, chart, i, k);
    }
    count
}

// Column q, where there are marks by them, with those of its right parts.
fn fill_column(
    grammar: Grammar<'_>,
    grouped: &Groups,
    heard: Option<&[u64; 16]>,
    lefts: &mut [u64],
    event: usize,
    chart: &mut [u64],
    q: usize,
) -> u64
    requires grouped { Grouped (shown grammar) grouped.now }
    requires q_bound { (q + 1 < 65536) × (cell_at q (q + 1) < length chart.old) × (InUse lefts.old → Lefts 64 (in_chart chart.old) lefts.old (q + 1) (q + 1)) }
    requires heard { IfSome heard (λ h. Heard (shown grammar) h.now (event_rule_count (shown grammar))) }
    ensures { ColumnFilled (shown grammar.entry) event chart.old chart.new q result × (result ≤ 2 ^ 41)
        × (InUse lefts.new → Lefts 64 (in_chart chart.new) lefts.new 0 (q + 1)) }
{
    if lefts.len() < marks::LEFTS {
        return push_cells(grammar, grouped, heard, event, chart, q);
    }
    let mut rights = [0u64; marks::BLOCK];
    fill_cells(grammar, grouped, heard, lefts, &mut rights, event, chart, q)
}

// Column q alone, without marks, which would have to be made of all the older columns first.
pub fn fill_one(grammar: Grammar<'_>, event: usize, chart: &mut [u64], q: usize) -> u64
    requires q_bound { (q + 1 < 65536) × (cell_at q (q + 1) < length chart.old) }
    ensures { ColumnFilled (shown grammar.entry) event chart.old chart.new q result }
{
    let mut grouped = Groups::NONE;
    groups::group_rules(grammar, &mut grouped);
    push_cells(grammar, &grouped, None, event, chart, q)
}

// All columns of a record.
fn fill_columns(
    grammar: Grammar<'_>,
    grouped: &Groups,
    heard: Option<&[u64; 16]>,
    lefts: &mut [u64],
    events: &[u16],
    chart: &mut [u64],
) -> u64
    requires grouped { Grouped (shown grammar) grouped.now }
    requires events_len_bound { (length events.now < 65536) × (cells (length events.now) ≤ length chart.old) }
    requires events_len_bound_2 { InUse lefts.old → (length events.now ≤ 96) × Lefts 64 (in_chart chart.old) lefts.old 1 1 }
    requires heard { IfSome heard (λ h. Heard (shown grammar) h.now (event_rule_count (shown grammar))) }
    ensures { Columns (shown grammar.entry) events.now chart.old chart.new (length events.now) result }
{
    let mut count: u64 = 0;
    for (q, event) in events.iter().enumerate() {
        count += fill_column(grammar, grouped, heard, lefts, *event as usize, chart, q);
    }
    count
}

// The whole chart of a record; answers its firings.
pub fn fill_chart(grammar: Grammar<'_>, events: &[u16], chart: &mut [u64]) -> u64
    requires events_len_bound { (length events.now < 65536) × (cells (length events.now) ≤ length chart.old) }
    ensures { Columns (shown grammar.entry) events.now chart.old chart.new (length events.now) result }
{
    let mut grouped = Groups::NONE;
    groups::group_rules(grammar, &mut grouped);
    if marks::pay(events.len()) {
        let heard = kernel::events_of(grammar);
        let mut lefts = [0u64; marks::LEFTS];
        return fill_columns(grammar, &grouped, Some(&heard), &mut lefts, events, chart);
    }
    let mut none = [0u64; 1];
    fill_columns(grammar, &grouped, None, &mut none, events, chart)
}
