// The readings of a record: how many there are, reading number k, those from number k on, whether a script is that of a reading, and the
// number of one that is.
#![tactic(auto)]

mod refuse; // the refusals

ghost use Rattle.std.specs.Prelude.{◌*◌, length};
ghost use Rattle.derivation.specs.Tree.{script_word_count};
ghost use Rattle.readings.specs.Answer.{counted, read, paged, checked, found};
ghost use Rattle.readings.specs.Count.{CountIs};
ghost use Rattle.readings.specs.Reading.{ReadingIs};
ghost use Rattle.readings.specs.Page.{PageIs};
ghost use Rattle.readings.specs.Check.{CheckIs};
ghost use Rattle.readings.specs.Number.{NumberIs};
ghost use Rattle.readings.specs.Exact.{Lendable};

use image::{Grammar, Refusal};
use table::Counts;

// Counts the readings, held at the limit, and fills the table.
pub fn count(image: &[u8], events: &[u16], table: &mut [u32]) -> Result<u32, Refusal>
    ensures { CountIs image.now events.now table.old (counted result) table.new }
{
    let grammar = refuse::test_count(image, events.len(), table.len())?;
    table::fill_table(grammar, events, table);
    Ok(table::total_in(Counts {
        grammar,
        events,
        table,
    }))
}

// A page of a record that nothing but its number refuses.
pub fn page_accepted(
    grammar: Grammar<'_>,
    events: &[u16],
    k: u32,
    m: u32,
    table: &mut [u32],
    room: &mut [u16],
) -> Result<u32, Refusal>
    requires { Lendable grammar.bytes.now (length events.now) (length table.old) (m * script_word_count (length events.now)) (length room.old) }
    ensures { PageIs grammar.entry.bytes.now events.now k m table.old room.old
        (paged result) table.new room.new }
{
    table::fill_table(grammar, events, table);
    let counts = Counts {
        grammar,
        events,
        table,
    };
    let total = table::total_in(counts);
    refuse::test_number(k, total)?;
    let written = m.min(total - k);
    pages::write_page(counts, k, written, room);
    Ok(written)
}

// Writes the scripts of the readings from number k on to the front of the room, m of them or as many as there are, and fills the table; answers
// how many.
pub fn page(
    image: &[u8],
    events: &[u16],
    k: u32,
    m: u32,
    table: &mut [u32],
    room: &mut [u16],
) -> Result<u32, Refusal>
    ensures { PageIs image.now events.now k m table.old room.old
        (paged result) table.new room.new }
{
    let grammar = refuse::test_lent(image, events.len(), table.len(), m, room.len())?;
    page_accepted(grammar, events, k, m, table, room)
}

// Writes the script of reading number k to the front of the room, and fills the table: a page of one.
#[tactic(auto, using(crate::proofs::Pages::page_of_one))]
pub fn reading(
    image: &[u8],
    events: &[u16],
    k: u32,
    table: &mut [u32],
    room: &mut [u16],
) -> Result<(), Refusal>
    ensures { ReadingIs image.now events.now k table.old room.old
        (read result) table.new room.new }
{
    page(image, events, k, 1, table, room)?;
    Ok(())
}

// Whether the words are the script of a reading.
pub fn check(image: &[u8], events: &[u16], script: &[u16]) -> Result<bool, Refusal>
    ensures { CheckIs image.now events.now script.now (checked result) }
{
    let grammar = image::test_record(image, events.len())?;
    Ok(follow::is_reading(grammar, events, script))
}

// Finds the number of the reading with this script, and fills the table.
pub fn number(
    image: &[u8],
    events: &[u16],
    script: &[u16],
    table: &mut [u32],
) -> Result<u32, Refusal>
    ensures { NumberIs image.now events.now script.now table.old (found result) table.new }
{
    let n = events.len();
    let grammar = refuse::test_count(image, n, table.len())?;
    table::fill_table(grammar, events, table);
    if !follow::is_reading(grammar, events, script) {
        return Err(Refusal::NoSuchReading);
    }
    let counts = Counts {
        grammar,
        events,
        table,
    };
    let reading = rank::rank_reading(counts, script);
    if reading == table::LIMIT {
        return Err(Refusal::BeyondLimit);
    }
    Ok(reading)
}
