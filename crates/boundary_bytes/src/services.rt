// What the C functions answer: the refusals, and else the library's service over the words that the bytes show.
ghost use Rattle.chart.specs.Answer.{judged};
ghost use Rattle.readings.specs.Answer.{counted, read};
ghost use Rattle.boundary_bytes.specs.JudgeBytes.{JudgeBytesIs};
ghost use Rattle.boundary_bytes.specs.CountBytes.{CountBytesIs};
ghost use Rattle.boundary_bytes.specs.ReadingBytes.{ReadingBytesIs};

use super::refuse::{test_chart, test_lent, test_table};
use chart::Judgement;
use image::Refusal;

// The words of the longest script.
const SCRIPT_WORDS: usize = 2 * (2 * image::MOST_EVENTS - 1);

pub fn judge(image: &[u8], events: &[u8], chart: &mut [u8]) -> Result<Judgement, Refusal>
    ensures { JudgeBytesIs image.now events.now chart.old (judged result) chart.new }
{
    let grammar = test_chart(image, events.len(), chart.len())?;
    let mut record = [0u16; image::MOST_EVENTS];
    let n = packed::read_2(events, &mut record);
    Ok(lent::charts::judge(grammar, &record[..n], chart))
}

pub fn count(image: &[u8], events: &[u8], table: &mut [u8]) -> Result<u32, Refusal>
    ensures { CountBytesIs image.now events.now table.old (counted result) table.new }
{
    let grammar = test_table(image, events.len(), table.len())?;
    let mut record = [0u16; image::MOST_EVENTS];
    let n = packed::read_2(events, &mut record);
    let mut none = [0u16; 1];
    let taken = lent::tables::take(grammar, &record[..n], 0, 0, table, &mut none);
    Ok(taken.total)
}

pub fn reading(
    image: &[u8],
    events: &[u8],
    k: u32,
    table: &mut [u8],
    room: &mut [u8],
) -> Result<(), Refusal>
    ensures { ReadingBytesIs image.now events.now k table.old room.old
        (read result) table.new room.new }
{
    let grammar = test_lent(image, events.len(), table.len(), room.len())?;
    let mut record = [0u16; image::MOST_EVENTS];
    let n = packed::read_2(events, &mut record);
    let mut script = [0u16; SCRIPT_WORDS];
    let taken = lent::tables::take(grammar, &record[..n], k, 1, table, &mut script);
    taken.paged?;
    let need = derivation::script_words(n);
    packed::write(&script[..need], room);
    Ok(())
}
