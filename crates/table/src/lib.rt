// The count table: how many derivations each symbol has over each stretch, each cell from the cells of the shorter stretches inside it.
#![tactic(auto)]

mod counts; // a record with its counts
pub mod numbers; // numbers held at the limit
mod splits; // the words of a table, and what they say of a stretch in two parts
mod fill; // cells and columns

ghost use Rattle.std.specs.Prelude.{◌≡◌, true, ◌≤◌, ◌<◌, length, get_or};
ghost use Rattle.derivation.specs.Derivations.{readings};
ghost use Rattle.image.specs.Shown.{shown};
ghost use Rattle.table.specs.Table.{held, slot_of, table_words, Filled};
ghost use Rattle.table.specs.Fill.{split_adds, InReach};

pub use counts::Counts;
use image::Grammar;

// The largest number that a word of the table shows.
pub const LIMIT: u32 = u32::MAX;

// How many words the table of a record of n events needs.
pub fn words_needed(symbols: usize, n: usize) -> usize
    requires { (symbols ≤ 64) × (n < 65536) }
    ensures { result ≡ table_words symbols n }
{
    symbols * derivation::cell_count(n)
}

// Whether marks save more than they cost: with few rules there is little to skip.
fn marks_pay(n: usize, pairs: usize) -> bool
    ensures { result ≡ true → n ≤ 96 }
{
    pairs >= 4 && marks::pay(n)
}

// Fills the table of a record, column after column, with or without marks.
pub fn fill_table(grammar: Grammar<'_>, events: &[u16], table: &mut [u32])
    requires events_len_bound { (length events.now < 65536) × (table_words (shown grammar).symbols (length events.now) ≤ length table.old) }
    ensures { Filled (shown grammar.entry) events.now table.old table.new }
{
    if marks_pay(events.len(), grammar.pair_count()) {
        let mut lefts = [0u64; marks::LEFTS];
        fill::fill_columns(grammar, events, table, &mut lefts);
    } else {
        let mut none = [0u64; 1];
        fill::fill_columns(grammar, events, table, &mut none);
    }
}

// The word for a symbol over i to k.
pub fn word_of(table: &[u32], symbols: usize, symbol: usize, i: usize, k: usize) -> u32
    requires { (symbols ≤ 64) × (symbol < symbols) × (i < k) × (k < 65536) × (table_words symbols k ≤ length table.now) }
    ensures { result ≡ get_or table.now (slot_of symbols symbol i k) 0 }
{
    table[splits::slot(symbols, symbol, i, k)]
}

// What two symbols add over i to k with the split j.
pub fn split_count(
    table: &[u32],
    symbols: usize,
    left: usize,
    right: usize,
    i: usize,
    k: usize,
    j: usize,
) -> u32
    requires { InReach table.now symbols left right i k × (i < j) × (j < k) }
    ensures { result ≡ split_adds table.now symbols left right i k j }
{
    let first = word_of(table, symbols, left, i, j);
    let second = word_of(table, symbols, right, j, k);
    numbers::held_product(first, second)
}

// How many readings a record has, held at the limit: the word for symbol 0 over all of it, and for an empty record the flag.
pub fn total_in(counts: Counts<'_>) -> u32
    requires { length counts.events.now < 65536 }
    ensures { result ≡ held (length (readings (shown counts.entry.grammar) counts.entry.events.now)) }
{
    let Counts {
        grammar,
        events,
        table,
    } = counts;
    if events.is_empty() {
        u32::from(grammar.is_quiet())
    } else {
        word_of(table, grammar.symbol_count(), 0, 0, events.len())
    }
}
