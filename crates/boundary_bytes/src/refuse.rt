// The refusals of the record's bytes, and those of what is lent: a length holds as many whole words as fit.
ghost use Rattle.std.specs.Prelude.{◌≡◌, ◌/◌, ◌++◌, IfOk};
ghost use Rattle.layout.specs.Layout.{decode};
ghost use Rattle.image.specs.Image.{record_byte_rows};
ghost use Rattle.image.specs.Refuse.{RefusalIs};
ghost use Rattle.chart.specs.Judge.{chart_rows};
ghost use Rattle.boundary_bytes.specs.CountBytes.{count_byte_rows};
ghost use Rattle.boundary_bytes.specs.ReadingBytes.{lent_byte_rows};

use image::{Grammar, Refusal};

// And then 9.
pub fn test_chart(image: &[u8], events: usize, chart: usize) -> Result<Grammar<'_>, Refusal>
    ensures tested { RefusalIs (record_byte_rows image.now events ++ chart_rows (events / 2) (chart / 8)) (decode image.now) result }
    ensures bytes { IfOk result (λ g. g.bytes.now ≡ image.now) }
{
    let grammar = image::test_record_bytes(image, events)?;
    let need = derivation::cell_count(events / 2);
    if chart / 8 < need {
        return Err(Refusal::ShortChart);
    }
    Ok(grammar)
}

// And then 10.
pub fn test_table(image: &[u8], events: usize, table: usize) -> Result<Grammar<'_>, Refusal>
    ensures tested { RefusalIs (count_byte_rows image.now events table) (decode image.now) result }
    ensures bytes { IfOk result (λ g. g.bytes.now ≡ image.now) }
{
    let grammar = image::test_record_bytes(image, events)?;
    let need = table::words_needed(grammar.symbol_count(), events / 2);
    if table / 4 < need {
        return Err(Refusal::ShortTable);
    }
    Ok(grammar)
}

// And then 10 and 11.
pub fn test_lent(
    image: &[u8],
    events: usize,
    table: usize,
    room: usize,
) -> Result<Grammar<'_>, Refusal>
    ensures tested { RefusalIs (lent_byte_rows image.now events table room) (decode image.now) result }
    ensures bytes { IfOk result (λ g. g.bytes.now ≡ image.now) }
{
    let grammar = test_table(image, events, table)?;
    let need = derivation::script_words(events / 2);
    if room / 2 < need {
        return Err(Refusal::ShortRoom);
    }
    Ok(grammar)
}
