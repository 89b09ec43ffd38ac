// The refusals of the program, in its order.
ghost use Rattle.std.specs.Prelude.{◌≡◌, IfOk};
ghost use Rattle.layout.specs.Layout.{decode};
ghost use Rattle.image.specs.Refuse.{RefusalIs};
ghost use Rattle.listing.specs.Listing.{program_rows};

use image::{Grammar, Refusal};

// The refusals of the image and of the record's bytes, and then 10.
pub fn test_program<'a>(image: &'a [u8], events: &[u8]) -> Result<Grammar<'a>, Refusal>
    ensures tested { RefusalIs (program_rows image.now events.now) (decode image.now) result }
    ensures bytes { IfOk result (λ g. g.bytes.now ≡ image.now) }
{
    let size = events.len();
    let grammar = image::test_record_bytes(image, size)?;
    let need = table::words_needed(grammar.symbol_count(), size / 2);
    if super::TABLE_WORDS < need {
        return Err(Refusal::ShortTable);
    }
    Ok(grammar)
}
