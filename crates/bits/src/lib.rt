// A word as a set of numbers below 64: a bit is tested, put in or taken out, all are counted, the first one is found, each is visited.
#![tactic(auto)]

ghost use Rattle.std.specs.Prelude.{◌≡◌, ◌≤◌, ◌<◌};
ghost use Rattle.std.specs.Iterator.{at_most};
ghost use Rattle.bits.specs.Sum.{sum};
ghost use Rattle.bits.specs.Bit.{bit};
ghost use Rattle.bits.specs.Word.{put, Without, GivesMember};

use std::marker::Model;

// Bit a of a word: 0 or 1.
#[tactic(auto, unfolding(crate::specs::Bit::bit))]
pub fn bit_of(word: u64, a: usize) -> u64
    requires { a < 64 }
    ensures { result ≡ bit word a }
{
    (word >> a) % 2
}

// The word with hit, 0 or 1, put into bit a.
pub fn put_bit(word: u64, a: usize, hit: u64) -> u64
    requires { (a < 64) × (hit < 2) }
    ensures { result ≡ put word a hit }
{
    word | (hit << a)
}

// How many bits of a word are set.
pub fn ones(word: u64) -> u32
    ensures { (result ≡ sum 64 (bit word)) × (result ≤ 64) }
{
    u64::count_ones(word)
}

// A set bit of a word that has one; which of them makes no difference to a caller.
#[tactic(auto, using(crate::proofs::First::first_is))]
pub fn first_bit(word: u64) -> usize
    requires { 0 < word }
    ensures { (result < 64) × (bit word result ≡ 1) }
{
    u64::trailing_zeros(word) as usize
}

// A word without a bit that it has.
pub fn without(word: u64, a: usize) -> u64
    requires { (a < 64) × (bit word a ≡ 1) }
    ensures { Without word a result }
{
    word - (1 << a)
}

// The numbers in a word, one by one: it is seen as the word of those that are left.
#[derive(Drop)]
pub struct Iter {
    rest: u64,
}

impl Model for Iter {
    ghost use Rattle.std.specs.Prelude.{ℕ};

    ghost Value = { ℕ };

    ghost view = { λ m. m.rest };
}

impl Iterator for Iter {
    type Item = usize;

    ghost next_gives = { GivesMember };

    ghost remaining = { λ rest. at_most rest };

    #[inline]
    #[tactic(auto, using(crate::proofs::First::first_given))]
    fn next(&mut self) -> Option<usize> {
        if self.rest == 0 {
            return None;
        }
        let a = u64::trailing_zeros(self.rest) as usize;
        self.rest &= self.rest - 1;
        Some(a)
    }
}

// The numbers in a word, to be visited.
#[inline]
pub fn members(word: u64) -> Iter
    ensures { result ≡ word }
{
    Iter { rest: word }
}
