// Judging, counting and one reading as C functions over bytes, for controllers: events and results low byte first. A slice passes as a
// pointer and a length; each answers its number, and the rest of its answer through references.
#![tactic(auto)]

mod refuse; // the refusals
mod services; // what the C functions answer

ghost use Rattle.std.specs.Prelude.{◌≡◌};
ghost use Rattle.image.specs.Answer.{number_in, rule_in};
ghost use Rattle.boundary_bytes.specs.JudgeBytes.{JudgeBytesIs};
ghost use Rattle.boundary_bytes.specs.CountBytes.{CountBytesIs};
ghost use Rattle.boundary_bytes.specs.ReadingBytes.{ReadingBytesIs};

use image::Refusal;

// Tells C whether a service refused: the number of the refusal or 0, and through `rule` the rule that it names.
fn tell<T>(answer: &Result<T, Refusal>, rule: &mut u16) -> u8
    ensures { (result ≡ number_in answer.now) × (rule.new ≡ rule_in answer.now) }
{
    match answer {
        Ok(_) => {
            *rule = 0;
            0
        }
        Err(refusal) => {
            *rule = refusal.rule();
            refusal.number()
        }
    }
}

// Judges a record.
#[unsafe(no_mangle)]
pub extern "C" fn reader_judge_bytes(
    image: &[u8],
    events: &[u8],
    chart: &mut [u8],
    rule: &mut u16,
    admitted: &mut bool,
    items: &mut u64,
    firings: &mut u64,
) -> u8
    ensures { JudgeBytesIs image.now events.now chart.old
        (record { refusal = result; rule = rule.new; admitted = admitted.new; items = items.new; firings = firings.new })
        chart.new }
{
    let judged = services::judge(image, events, chart);
    if let Ok(judgement) = judged {
        *admitted = judgement.admitted;
        *items = judgement.items;
        *firings = judgement.firings;
    } else {
        *admitted = false;
        *items = 0;
        *firings = 0;
    }
    tell(&judged, rule)
}

// Counts the readings of a record.
#[unsafe(no_mangle)]
pub extern "C" fn reader_count_bytes(
    image: &[u8],
    events: &[u8],
    table: &mut [u8],
    rule: &mut u16,
    total: &mut u32,
) -> u8
    ensures { CountBytesIs image.now events.now table.old
        (record { refusal = result; rule = rule.new; total = total.new }) table.new }
{
    let counted = services::count(image, events, table);
    *total = counted.unwrap_or(0);
    tell(&counted, rule)
}

// Gives reading number k as a script.
#[unsafe(no_mangle)]
pub extern "C" fn reader_reading_bytes(
    image: &[u8],
    events: &[u8],
    k: u32,
    table: &mut [u8],
    room: &mut [u8],
    rule: &mut u16,
) -> u8
    ensures { ReadingBytesIs image.now events.now k table.old room.old
        (record { refusal = result; rule = rule.new }) table.new room.new }
{
    let read = services::reading(image, events, k, table, room);
    tell(&read, rule)
}
