// The rows of the refusal table: one function for each demand on the bytes, and the first row that applies.
ghost use Rattle.std.specs.Prelude.{◌≡◌, ◌≤◌, length};
ghost use Rattle.bits.specs.Truth.{Decides};
ghost use Rattle.image.specs.Refusal.{First};
ghost use Rattle.layout.specs.Layout.{header_bytes, decode, Sized, Whole};
ghost use Rattle.image.specs.Image.{Marked, Versioned, Ranged, byte_rows, rule_rows};
ghost use Rattle.image.specs.Answer.{number_in, rule_in};
ghost use Rattle.image.specs.Refuse.{RefusalIs};

use super::Refusal;

// The letters ESG, with which an image begins.
const MARK: [u8; 3] = *b"ESG";

const MOST_SYMBOLS: usize = 64;

pub const MOST_LEAVES: usize = 512;

pub const MOST_PAIRS: usize = 256;

const MOST_FLAG: usize = 1;

fn marked(image: &[u8]) -> bool
    requires { header_bytes ≤ length image.now }
    ensures { Decides result (Marked image.now) }
{
    image.starts_with(&MARK)
}

fn versioned(image: &[u8]) -> bool
    requires { header_bytes ≤ length image.now }
    ensures { Decides result (Versioned image.now) }
{
    let version = layout::version(image);
    version == 1 || version == 2
}

fn ranged(image: &[u8]) -> bool
    requires { header_bytes ≤ length image.now }
    ensures { Decides result (Ranged image.now) }
{
    let symbols = layout::symbol_count(image);
    let leaves = layout::leaf_count(image);
    let pairs = layout::pair_count(image);
    let flag = layout::quiet_flag(image);
    if symbols < 1 {
        return false;
    }
    if MOST_SYMBOLS < symbols {
        return false;
    }
    if MOST_LEAVES < leaves {
        return false;
    }
    if MOST_PAIRS < pairs {
        return false;
    }
    if MOST_FLAG < flag {
        return false;
    }
    true
}

fn sized(image: &[u8]) -> bool
    requires { header_bytes ≤ length image.now }
    ensures { Decides result (Sized image.now) }
{
    let from = layout::rules_from(image);
    let rules = layout::rule_count(image);
    image.len() == from + 3 * rules
}

// Refusals 1 to 5.
pub fn test_bytes(image: &[u8]) -> Result<(), Refusal>
    ensures { First (byte_rows image.now) (number_in result) × (rule_in result ≡ 0) }
{
    if image.len() < layout::HEADER_BYTES {
        return Err(Refusal::Short);
    }
    if !marked(image) {
        return Err(Refusal::Unmarked);
    }
    if !versioned(image) {
        return Err(Refusal::UnknownVersion);
    }
    if !ranged(image) {
        return Err(Refusal::OutOfRange);
    }
    if !sized(image) {
        return Err(Refusal::WrongLength);
    }
    Ok(())
}

// Refusals 6 and 7 with the first rule at fault, and 15.
pub fn test_rules(image: &[u8]) -> Result<(), Refusal>
    requires { Whole image.now × Ranged image.now }
    ensures { RefusalIs (rule_rows (decode image.now)) (decode image.now) result }
{
    if let Some(rule) = rules::first_unfit(image) {
        return Err(Refusal::UnknownSymbol(rule as u16));
    }
    if let Some(rule) = rules::first_unordered(image) {
        return Err(Refusal::OutOfOrder(rule as u16));
    }
    if !live::all_live(image) {
        return Err(Refusal::DeadSymbol);
    }
    Ok(())
}
