// Marks: at which splits a symbol stands, as sets, so that only what stands is visited.
#![tactic(auto)]

ghost use Rattle.std.specs.Prelude.{◌≡◌, true, ◌+◌, ◌*◌, ◌≤◌, ◌<◌, length, get_or, set};
ghost use Rattle.std.specs.Int.Bits.{bit_or};
ghost use Rattle.marks.specs.Mark.{meetings, Apart, SeenIn, CommonIs, Told, Entered, Marked};
ghost use Rattle.marks.specs.Shown.{InUse, CellMarked};

// The starts that have blocks, the words of a block, and those of all blocks.
const STARTS: usize = 96;

pub const BLOCK: usize = 131;

pub const LEFTS: usize = STARTS * BLOCK;

// In a block, past the words of the 64 symbols: the two of all splits at which any symbol stands, and that of all symbols.
const SOME: usize = 128;

const SEEN: usize = 130;

// Whether marks save more than it costs to make them: the record is neither short nor longer than they reach.
pub fn pay(n: usize) -> bool
    ensures { result ≡ true → n ≤ 96 }
{
    (16..=STARTS).contains(&n)
}

// The bits of more in word `at` too.
fn join(marks: &mut [u64], at: usize, more: u64)
    requires { at < length marks.old }
    ensures { marks.new ≡ set marks.old at (bit_or (get_or marks.old at 0) more) }
{
    marks[at] |= more;
}

// Each symbol of a word at split j.
fn mark_symbols(marks: &mut [u64], r: usize, j: usize, word: u64)
    requires { (r < 96) × (131 * r + 131 ≤ length marks.old) × (j < 128) }
    ensures { Entered marks.old marks.new r j word }
{
    let from = BLOCK * r + j / 64;
    let split = bits::put_bit(0, j % 64, 1);
    for a in bits::members(word) {
        join(marks, from + 2 * a, split);
    }
}

// Marks the symbols of a word at split j of block r.
fn mark(marks: &mut [u64], r: usize, j: usize, word: u64)
    requires { (r < 96) × (131 * r + 131 ≤ length marks.old) × (j < 128) }
    ensures { Marked marks.old marks.new r j word }
{
    if word == 0 {
        return;
    }
    mark_symbols(marks, r, j, word);
    let base = BLOCK * r;
    let split = bits::put_bit(0, j % 64, 1);
    join(marks, base + SOME + j / 64, split);
    join(marks, base + SEEN, word);
}

// Marks the symbols of cell (i, k), where there are marks: the cell is a left part of the stretches that begin with it, and a right part of those
// that end with it.
pub fn mark_cell(lefts: &mut [u64], rights: &mut [u64], i: usize, k: usize, word: u64)
    requires { (i < k) × (InUse lefts.old → (k ≤ 96) × (131 ≤ length rights.old)) }
    ensures { CellMarked lefts.old lefts.new rights.old rights.new i k word }
{
    if lefts.len() < LEFTS {
        return;
    }
    mark(lefts, i, k, word);
    mark(rights, 0, i, word);
}

// All the symbols that stand anywhere in block r.
pub fn seen(marks: &[u64], r: usize) -> u64
    requires { (r < 96) × (131 * r + 131 ≤ length marks.now) × Told marks.now }
    ensures { SeenIn marks.now r result }
{
    marks[BLOCK * r + SEEN]
}

// ---- the marks of block r beside the column's

// Whether they have no split in common.
pub fn apart(marks: &[u64], r: usize, column: &[u64]) -> bool
    requires r_bound { (r < 96) × (131 * r + 131 ≤ length marks.now) × (131 ≤ length column.now) }
    requires told { Told marks.now × Told column.now }
    ensures { result ≡ true → Apart marks.now r column.now }
{
    let some = BLOCK * r + SOME;
    marks[some] & column[SOME] == 0 && marks[some + 1] & column[SOME + 1] == 0
}

// The splits, of those below 64 or of those from 64 on, at which a stands in block r and c in the column.
pub fn common(marks: &[u64], r: usize, a: usize, column: &[u64], c: usize, half: usize) -> u64
    requires r_bound { (r < 96) × (131 * r + 131 ≤ length marks.now) × (131 ≤ length column.now) }
    requires a_bound { (a < 64) × (c < 64) × (half < 2) × Told column.now }
    ensures { CommonIs marks.now r a column.now c half result }
{
    if column[SOME + half] == 0 {
        return 0;
    }
    marks[BLOCK * r + 2 * a + half] & column[2 * c + half]
}

// How many they are.
pub fn meeting(marks: &[u64], r: usize, a: usize, column: &[u64], c: usize) -> u64
    requires r_bound { (r < 96) × (131 * r + 131 ≤ length marks.now) × (131 ≤ length column.now) }
    requires a_bound { (a < 64) × (c < 64) × Told column.now }
    ensures { (result ≡ meetings marks.now r a column.now c) × (result ≤ 128) }
{
    let low = common(marks, r, a, column, c, 0);
    let high = common(marks, r, a, column, c, 1);
    (bits::ones(low) + bits::ones(high)) as u64
}
