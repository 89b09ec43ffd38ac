// What a grammar derives: the definitions are in specs/, their laws in proofs/. The only code says where a cell stands, how many there are,
// and how many words a script has.
#![tactic(auto)]

ghost use Rattle.std.specs.Prelude.{◌≡◌, ◌<◌};
ghost use Rattle.derivation.specs.Tree.{script_word_count};
ghost use Rattle.derivation.specs.Chart.{cell_at, cells};

// The number of cell (i, k).
pub fn cell_at(i: usize, k: usize) -> usize
    requires { (i < k) × (k < 65536) }
    ensures { result ≡ cell_at i k }
{
    k * (k - 1) / 2 + i
}

// How many cells a record of n events has.
pub fn cell_count(n: usize) -> usize
    requires { n < 65536 }
    ensures { result ≡ cells n }
{
    n * (n + 1) / 2
}

// How many words a script over n events has.
pub fn script_words(n: usize) -> usize
    requires { n < 65536 }
    ensures { result ≡ script_word_count n }
{
    2 * (2 * n).saturating_sub(1)
}
