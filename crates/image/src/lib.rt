// The grammar image: its test by refusals 1 to 7 and 15, and the test that every service over a record begins with.
#![tactic(auto)]

mod accepted; // an image that the test accepted
mod numbered; // the refusals, and their numbers
mod refuse; // the rows of the refusal table

ghost use Rattle.std.specs.Prelude.{◌≡◌, IfOk};
ghost use Rattle.layout.specs.Layout.{decode};
ghost use Rattle.image.specs.Image.{image_rows, record_rows, record_byte_rows, TestedIs};
ghost use Rattle.image.specs.Outcome.{tested};

pub use accepted::Grammar;
pub use numbered::Refusal;

// The most events that a record may have.
pub const MOST_EVENTS: usize = 96;

// The bytes of the longest image that is accepted.
pub const LONGEST_IMAGE: usize = layout::HEADER_BYTES
    + layout::FLAG_BYTES
    + 3 * (refuse::MOST_LEAVES + refuse::MOST_PAIRS);

// Tests a grammar image: refusals 1 to 7 and 15.
pub fn test_image(image: &[u8]) -> Result<Grammar<'_>, Refusal>
    ensures tested { TestedIs (image_rows image.now) (decode image.now) (tested result) }
    ensures bytes { IfOk result (λ g. g.bytes.now ≡ image.now) }
{
    refuse::test_bytes(image)?;
    refuse::test_rules(image)?;
    Ok(Grammar { bytes: image })
}

// Tests a grammar image and a number of events: refusals 1 to 7, 15 and 8.
pub fn test_record(image: &[u8], events: usize) -> Result<Grammar<'_>, Refusal>
    ensures tested { TestedIs (record_rows image.now events) (decode image.now) (tested result) }
    ensures bytes { IfOk result (λ g. g.bytes.now ≡ image.now) }
{
    let grammar = test_image(image)?;
    if MOST_EVENTS < events {
        return Err(Refusal::TooManyEvents);
    }
    Ok(grammar)
}

// Tests a grammar image and a number of bytes, two for each event: refusals 1 to 7, 15, 8 and 14.
pub fn test_record_bytes(image: &[u8], size: usize) -> Result<Grammar<'_>, Refusal>
    ensures tested { TestedIs (record_byte_rows image.now size) (decode image.now) (tested result) }
    ensures bytes { IfOk result (λ g. g.bytes.now ≡ image.now) }
{
    let grammar = test_image(image)?;
    if 2 * MOST_EVENTS < size {
        return Err(Refusal::TooManyEvents);
    }
    if size % 2 != 0 {
        return Err(Refusal::OddBytes);
    }
    Ok(grammar)
}
