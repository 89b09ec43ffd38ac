// The words of a table over a stretch in two parts.
ghost use Rattle.std.specs.Prelude.{◌≡◌, ◌+◌, ◌*◌, ◌≤◌, ◌<◌};
ghost use Rattle.bits.specs.Truth.{Every};
ghost use Rattle.bits.specs.Sum.{sum, between};
ghost use Rattle.bits.specs.Bit.{bit};
ghost use Rattle.bits.specs.Word.{Has};
ghost use Rattle.marks.specs.Shown.{InUse};
ghost use Rattle.table.specs.Table.{limit, held, slot_of};
ghost use Rattle.table.specs.Fill.{split_adds, InReach, Parts};

use super::numbers::{held_product, hold};
use super::split_count;

// The word of the table for a symbol over i to k.
pub fn slot(symbols: usize, symbol: usize, i: usize, k: usize) -> usize
    requires { (symbols ≤ 64) × (symbol < 64) × (i < k) × (k < 65536) }
    ensures { result ≡ slot_of symbols symbol i k }
{
    derivation::cell_at(i, k) * symbols + symbol
}

// What two symbols add over i to k with the splits of a set, numbered from `from` on.
fn sum_set(
    table: &[u32],
    symbols: usize,
    left: usize,
    right: usize,
    i: usize,
    k: usize,
    splits: u64,
    from: usize,
) -> u64
    requires { InReach table.now symbols left right i k × (from ≤ 64) × Every 64 (λ x. Has splits x → (i < from + x) × (from + x < k)) }
    ensures { (result ≡ sum 64 (λ x. bit splits x * split_adds table.now symbols left right i k (from + x))) × (result ≤ 64 * limit) }
{
    let mut total: u64 = 0;
    for x in bits::members(splits) {
        total += split_count(table, symbols, left, right, i, k, from + x) as u64;
    }
    total
}

// What two symbols add over i to k, two events or more, with all splits. One split further the left part's word is as many cells on as
// its stretch then ends at, and the right part's word is the next cell's.
fn sum_all(table: &[u32], symbols: usize, left: usize, right: usize, i: usize, k: usize) -> u32
    requires { InReach table.now symbols left right i k × (i + 1 < k) }
    ensures { result ≡ held (between i k (split_adds table.now symbols left right i k)) }
{
    let mut first = slot(symbols, left, i, i + 1);
    let mut second = slot(symbols, right, i + 1, k);
    let mut step = (i + 1) * symbols;
    let mut total: u64 = 0;
    for j in i + 1..k {
        total += held_product(table[first], table[second]) as u64;
        first += step;
        second += symbols;
        step += symbols;
    }
    hold(total)
}

// The same with the splits at which neither word is 0: the others add nothing.
fn sum_met(
    table: &[u32],
    lefts: &[u64],
    rights: &[u64],
    symbols: usize,
    left: usize,
    right: usize,
    i: usize,
    k: usize,
) -> u32
    requires in_reach { InReach table.now symbols left right i k × (i + 1 < k) × InUse lefts.now }
    requires parts { Parts table.now symbols lefts.now rights.now i k }
    ensures { result ≡ held (between i k (split_adds table.now symbols left right i k)) }
{
    let low = marks::common(lefts, i, left, rights, right, 0);
    let high = marks::common(lefts, i, left, rights, right, 1);
    let first = sum_set(table, symbols, left, right, i, k, low, 0);
    let second = sum_set(table, symbols, left, right, i, k, high, 64);
    hold(first + second)
}

// By all splits where there are no marks or most splits are met, else by those that are.
pub fn sum_splits(
    table: &[u32],
    lefts: &[u64],
    rights: &[u64],
    crowded: bool,
    symbols: usize,
    left: usize,
    right: usize,
    i: usize,
    k: usize,
) -> u32
    requires in_reach { InReach table.now symbols left right i k × (i + 1 < k) }
    requires parts { InUse lefts.now → Parts table.now symbols lefts.now rights.now i k }
    ensures { result ≡ held (between i k (split_adds table.now symbols left right i k)) }
{
    if crowded || lefts.len() < marks::LEFTS {
        sum_all(table, symbols, left, right, i, k)
    } else {
        sum_met(table, lefts, rights, symbols, left, right, i, k)
    }
}
