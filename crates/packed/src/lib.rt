// Words of 16, 32 and 64 bits as bytes, the low byte first.
#![tactic(auto)]

ghost use Rattle.std.specs.Prelude.{◌≡◌, ℕ, ◌*◌, ◌/◌, ◌≤◌, ◌<◌, length, map, take};
ghost use Rattle.std.proofs.Common.{lit<};
ghost use Rattle.packed.specs.Packed.{value, words};
ghost use Rattle.packed.specs.Put.{PutWords};

// A number that N bytes show, one or more.
pub trait Word<const N: usize>: Copy {
    ghost number: { Self → ℕ };

    fn to_bytes(self) -> [u8; N]
        ensures { value result ≡ number self };

    ghost some: { 0 < N };
}

impl Word<2> for u16 {
    ghost number = { λ w. w };

    fn to_bytes(self) -> [u8; 2] {
        u16::to_le_bytes(self)
    }

    ghost some = { lit< tt };
}

impl Word<4> for u32 {
    ghost number = { λ w. w };

    fn to_bytes(self) -> [u8; 4] {
        u32::to_le_bytes(self)
    }

    ghost some = { lit< tt };
}

impl Word<8> for u64 {
    ghost number = { λ w. w };

    fn to_bytes(self) -> [u8; 8] {
        u64::to_le_bytes(self)
    }

    ghost some = { lit< tt };
}

// The words that the bytes show, to the front of out; answers how many.
pub fn read_2(bytes: &[u8], out: &mut [u16]) -> usize
    requires { length bytes.now ≤ 2 * length out.old }
    ensures value { result ≡ length bytes.now / 2 }
    ensures out_after { take result out.new ≡ words 2 bytes.now }
{
    let (pairs, _) = bytes.as_chunks::<2>();
    for (i, pair) in pairs.iter().enumerate() {
        out[i] = u16::from_le_bytes(*pair);
    }
    pairs.len()
}

// The words, to the front of out.
pub fn write<const N: usize, W: Word<N>>(words: &[W], out: &mut [u8])
    requires { N * length words.now ≤ length out.old }
    ensures { PutWords N (length words.now) (map W.number words.now) out.old out.new }
{
    for (i, word) in words.iter().enumerate() {
        let at = N * i;
        out[at..at + N].copy_from_slice(&word.to_bytes());
    }
}
