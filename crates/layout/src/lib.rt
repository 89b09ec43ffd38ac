// The bytes of a grammar image, and in them the counts and the rules of the grammar that they show.
#![tactic(auto)]

ghost use Rattle.std.specs.Prelude.{◌≡◌, ◌+◌, ◌-◌, ◌<◌, ◌≤◌, length};
ghost use Rattle.derivation.specs.Grammar.{event_rule_count, pair_rule_count, rule_total, event_rule, pair_rule, rule_symbol};
ghost use Rattle.layout.specs.Layout.{header_bytes, byte_in, word_in, version_in, first_rule_at, rule_in, decode};
ghost use Rattle.layout.specs.Present.{HasRule, HasLeaf, HasPair};

// The header of every version, and the flag that follows it in version 2.
pub const HEADER_BYTES: usize = 10;

pub const FLAG_BYTES: usize = 1;

// The version with the flag.
const FLAG_VERSION: usize = 2;

// Where the header has its numbers.
const VERSION_AT: usize = 3;

const SYMBOLS_AT: usize = 5;

const LEAVES_AT: usize = 6;

const PAIRS_AT: usize = 8;

// The bytes of a rule, of either kind.
pub const RULE_BYTES: usize = 3;

// ---- numbers

fn byte_at(image: &[u8], at: usize) -> usize
    requires { at < length image.now }
    ensures { (result ≡ byte_in image.now at) × (result < 256) }
{
    image[at] as usize
}

// A 16-bit number, low byte first.
fn word_at(image: &[u8], at: usize) -> usize
    requires { at + 1 < length image.now }
    ensures { (result ≡ word_in image.now at) × (result < 65536) }
{
    u16::from_le_bytes([image[at], image[at + 1]]) as usize
}

// ---- versions

pub fn version(image: &[u8]) -> usize
    requires { header_bytes ≤ length image.now }
    ensures { result ≡ version_in image.now }
{
    word_at(image, VERSION_AT)
}

// Where the rules begin.
pub fn rules_from(image: &[u8]) -> usize
    requires { header_bytes ≤ length image.now }
    ensures { (result ≡ first_rule_at image.now) × (result < 16) }
{
    if version(image) == FLAG_VERSION {
        HEADER_BYTES + FLAG_BYTES
    } else {
        HEADER_BYTES
    }
}

// The flag, which admits the empty record where it is 1. There is none but in version 2.
pub fn quiet_flag(image: &[u8]) -> usize
    requires { header_bytes ≤ length image.now }
    ensures { (result ≡ (decode image.now).quiet) × (result < 256) }
{
    if version(image) == FLAG_VERSION && HEADER_BYTES < image.len() {
        byte_at(image, HEADER_BYTES)
    } else {
        0
    }
}

// ---- counts

pub fn symbol_count(image: &[u8]) -> usize
    requires { header_bytes ≤ length image.now }
    ensures { (result ≡ (decode image.now).symbols) × (result < 256) }
{
    byte_at(image, SYMBOLS_AT)
}

pub fn leaf_count(image: &[u8]) -> usize
    requires { header_bytes ≤ length image.now }
    ensures { (result ≡ event_rule_count (decode image.now)) × (result < 65536) }
{
    word_at(image, LEAVES_AT)
}

pub fn pair_count(image: &[u8]) -> usize
    requires { header_bytes ≤ length image.now }
    ensures { (result ≡ pair_rule_count (decode image.now)) × (result < 65536) }
{
    word_at(image, PAIRS_AT)
}

pub fn rule_count(image: &[u8]) -> usize
    requires { header_bytes ≤ length image.now }
    ensures { (result ≡ rule_total (decode image.now)) × (result < 131072) }
{
    leaf_count(image) + pair_count(image)
}

// ---- rules by number: event rules 0 to L−1, pair rules L to L+B−1

// Where rule r stands.
fn rule_at(image: &[u8], r: usize) -> usize
    requires { HasRule image.now r }
    ensures { (result ≡ rule_in image.now r) × (result + 2 < length image.now) }
{
    rules_from(image) + RULE_BYTES * r
}

// Byte k of rule r.
fn rule_byte(image: &[u8], r: usize, k: usize) -> usize
    requires { HasRule image.now r × (k < 3) }
    ensures { (result ≡ byte_in image.now (rule_in image.now r + k)) × (result < 256) }
{
    byte_at(image, rule_at(image, r) + k)
}

// The symbol of rule r, of either kind.
pub fn symbol_of(image: &[u8], r: usize) -> usize
    requires { HasRule image.now r }
    ensures { (result ≡ rule_symbol (decode image.now) r) × (result < 256) }
{
    rule_byte(image, r, 0)
}

// The event of event rule r.
pub fn event_of(image: &[u8], r: usize) -> usize
    requires { HasLeaf image.now r }
    ensures { (result ≡ (event_rule (decode image.now) r).event) × (result < 65536) }
{
    word_at(image, rule_at(image, r) + 1)
}

// The left symbol of the pair rule with number r.
pub fn left_of(image: &[u8], r: usize) -> usize
    requires { HasPair image.now r }
    ensures { (result ≡ (pair_rule (decode image.now) (r - event_rule_count (decode image.now))).left) × (result < 256) }
{
    rule_byte(image, r, 1)
}

// The right symbol of the pair rule with number r.
pub fn right_of(image: &[u8], r: usize) -> usize
    requires { HasPair image.now r }
    ensures { (result ≡ (pair_rule (decode image.now) (r - event_rule_count (decode image.now))).right) × (result < 256) }
{
    rule_byte(image, r, 2)
}
