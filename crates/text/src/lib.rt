// Numbers and lines as text, into memory that the caller lends; and bytes read as 16-bit words.
#![tactic(auto)]

ghost use Rattle.std.specs.Prelude.{◌≡◌, ◌++◌, ◌∷◌, [], ◌+◌, ◌*◌, ◌/◌, ◌≤◌, ◌<◌, length, drop};
ghost use Rattle.text.specs.Text.{text, line, words};
ghost use Rattle.text.specs.Put.{Put};

// One byte at the place at; answers the place behind it.
pub fn put_byte(out: &mut [u8], at: usize, b: u8) -> usize
    requires { at < length out.old }
    ensures value { result ≡ at + 1 }
    ensures put { Put (b ∷ []) out.old at result out.new }
{
    out[at] = b;
    at + 1
}

// All of src from the place at on; answers the place behind it.
pub fn put_bytes(out: &mut [u8], at: usize, src: &[u8]) -> usize
    requires { at + length src.now ≤ length out.old }
    ensures value { result ≡ at + length src.now }
    ensures put { Put src.now out.old at result out.new }
{
    let end = at + src.len();
    out[at..end].copy_from_slice(src);
    end
}

// x in decimal from the place at on; answers the place behind it.
pub fn put_number(out: &mut [u8], at: usize, x: u32) -> usize
    requires { at + 20 ≤ length out.old }
    ensures upper_bound { result ≤ at + 10 }
    ensures put { Put (text x) out.old at result out.new }
{
    let mut digits = [0u8; 20];
    let k = io::decimal(u64::from(x), &mut digits);
    put_bytes(out, at, &digits[..k])
}

// A word in decimal from the place at on; answers the place behind it.
pub fn put_word(out: &mut [u8], at: usize, x: u16) -> usize
    requires { at + 20 ≤ length out.old }
    ensures upper_bound { result ≤ at + 5 }
    ensures put { Put (text x) out.old at result out.new }
{
    put_number(out, at, u32::from(x))
}

// A space and a word; answers the place behind them.
fn put_spaced(out: &mut [u8], at: usize, x: u16) -> usize
    requires { at + 21 ≤ length out.old }
    ensures upper_bound { result ≤ at + 6 }
    ensures put { Put (32 ∷ text x) out.old at result out.new }
{
    let next = put_byte(out, at, b' ');
    put_word(out, next, x)
}

// The words parted by one space, and a newline, from the place at on; answers the place behind it.
pub fn put_line(out: &mut [u8], at: usize, words: &[u16]) -> usize
    requires { at + 6 * length words.now + 21 ≤ length out.old }
    ensures upper_bound { result ≤ at + 6 * length words.now + 1 }
    ensures put { Put (line words.now) out.old at result out.new }
{
    let Some((first, others)) = words.split_first() else {
        return put_byte(out, at, b'\n');
    };
    let mut end = put_word(out, at, *first);
    for word in others {
        end = put_spaced(out, end, *word);
    }
    put_byte(out, end, b'\n')
}

// The words that the bytes show, at the start of out, whose rest stays as it is; answers how many.
pub fn read_words(bytes: &[u8], out: &mut [u16]) -> usize
    requires { length bytes.now ≤ 2 * length out.old }
    ensures value { result ≡ length bytes.now / 2 }
    ensures out_after { out.new ≡ words bytes.now ++ drop result out.old }
{
    let (pairs, _) = bytes.as_chunks::<2>();
    for (i, pair) in pairs.iter().enumerate() {
        out[i] = u16::from_le_bytes(*pair);
    }
    pairs.len()
}
