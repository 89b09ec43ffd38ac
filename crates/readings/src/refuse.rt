// The refusals of count, with which those of reading, page and number begin, and what reading and page have behind them.
ghost use Rattle.std.specs.Prelude.{◌≡◌, ℕ, ◌*◌, IfOk};
ghost use Rattle.derivation.specs.Tree.{script_word_count};
ghost use Rattle.layout.specs.Layout.{decode};
ghost use Rattle.image.specs.Refusal.{First};
ghost use Rattle.image.specs.Answer.{number_in, rule_in};
ghost use Rattle.image.specs.Refuse.{RefusalIs};
ghost use Rattle.table.specs.Table.{held};
ghost use Rattle.readings.specs.Count.{count_rows};
ghost use Rattle.readings.specs.Reading.{lent_rows, number_rows};
ghost use Rattle.readings.specs.Exact.{Countable, Lendable};

use image::{Grammar, Refusal};

// The refusals of the record, and then 10.
pub fn test_count(image: &[u8], n: usize, size: usize) -> Result<Grammar<'_>, Refusal>
    ensures tested { RefusalIs (count_rows image.now n size) (decode image.now) result }
    ensures bytes { IfOk result (λ g. g.bytes.now ≡ image.now) }
    ensures countable { IfOk result (λ g. Countable g.bytes.now n size) }
{
    let grammar = image::test_record(image, n)?;
    if size < table::words_needed(grammar.symbol_count(), n) {
        return Err(Refusal::ShortTable);
    }
    Ok(grammar)
}

// The refusals of the record, and then 10, and 11 for a room of m scripts.
pub fn test_lent(
    image: &[u8],
    n: usize,
    size: usize,
    m: u32,
    space: usize,
) -> Result<Grammar<'_>, Refusal>
    ensures tested { RefusalIs (lent_rows image.now n size (m * script_word_count n) space) (decode image.now) result }
    ensures bytes { IfOk result (λ g. g.bytes.now ≡ image.now) }
    ensures lendable { IfOk result (λ g. Lendable g.bytes.now n size (m * script_word_count n) space) }
{
    let grammar = test_count(image, n, size)?;
    if space < m as usize * derivation::script_words(n) {
        return Err(Refusal::ShortRoom);
    }
    Ok(grammar)
}

// Refusals 12 and 13, where total is the true number of readings held at the limit.
pub fn test_number(k: u32, total: u32) -> Result<(), Refusal>
    ensures number { (m : ℕ) → total ≡ held m → First (number_rows k m) (number_in result) }
    ensures rule { rule_in result ≡ 0 }
{
    if k < total {
        Ok(())
    } else if total == table::LIMIT {
        Err(Refusal::BeyondLimit)
    } else {
        Err(Refusal::NoSuchReading)
    }
}
