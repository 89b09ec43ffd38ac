// The services as C functions, for Rust and C to link. A slice passes as a pointer and a length; each answers its number, and the rest of
// its answer through references. A session passes as its words and its count, and is written in place. The contracts are those of the services.
#![tactic(auto)]

ghost use Rattle.std.specs.Prelude.{◌≡◌};
ghost use Rattle.layout.specs.Layout.{decode};
ghost use Rattle.image.specs.Answer.{number_in, rule_in};
ghost use Rattle.image.specs.Image.{image_rows, TestedIs};
ghost use Rattle.chart.specs.Judge.{JudgeIs};
ghost use Rattle.session.specs.Session.{no_events, AddIs, TakeBackIs};
ghost use Rattle.readings.specs.Count.{CountIs};
ghost use Rattle.readings.specs.Reading.{ReadingIs};
ghost use Rattle.readings.specs.Page.{PageIs};
ghost use Rattle.readings.specs.Check.{CheckIs};
ghost use Rattle.readings.specs.Number.{NumberIs};

use image::Refusal;
use session::Session;

// Tells C whether a service refused: the number of the refusal or 0, and through `rule` the rule that it names.
fn tell<T>(answer: &Result<T, Refusal>, rule: &mut u16) -> u8
    ensures { (result ≡ number_in answer.now) × (rule.new ≡ rule_in answer.now) }
{
    match answer {
        Ok(_) => {
            *rule = 0;
            0
        }
        Err(refusal) => {
            *rule = refusal.rule();
            refusal.number()
        }
    }
}

// Tests a grammar image.
#[unsafe(no_mangle)]
pub extern "C" fn reader_test(
    image: &[u8],
    rule: &mut u16,
    symbols: &mut usize,
    leaves: &mut usize,
    pairs: &mut usize,
) -> u8
    ensures { TestedIs (image_rows image.now) (decode image.now)
        (record { refusal = result; rule = rule.new; symbols = symbols.new; leaves = leaves.new; pairs = pairs.new }) }
{
    let tested = image::test_image(image);
    if let Ok(grammar) = tested {
        *symbols = grammar.symbol_count();
        *leaves = grammar.leaf_count();
        *pairs = grammar.pair_count();
    } else {
        *symbols = 0;
        *leaves = 0;
        *pairs = 0;
    }
    tell(&tested, rule)
}

// Judges a record.
#[unsafe(no_mangle)]
pub extern "C" fn reader_judge(
    image: &[u8],
    events: &[u16],
    chart: &mut [u64],
    rule: &mut u16,
    admitted: &mut bool,
    items: &mut u64,
    firings: &mut u64,
) -> u8
    ensures { JudgeIs image.now events.now chart.old
        (record { refusal = result; rule = rule.new; admitted = admitted.new; items = items.new; firings = firings.new })
        chart.new }
{
    let judged = chart::judge(image, events, chart);
    if let Ok(judgement) = judged {
        *admitted = judgement.admitted;
        *items = judgement.items;
        *firings = judgement.firings;
    } else {
        *admitted = false;
        *items = 0;
        *firings = 0;
    }
    tell(&judged, rule)
}

// Counts the readings of a record.
#[unsafe(no_mangle)]
pub extern "C" fn reader_count(
    image: &[u8],
    events: &[u16],
    table: &mut [u32],
    rule: &mut u16,
    total: &mut u32,
) -> u8
    ensures { CountIs image.now events.now table.old
        (record { refusal = result; rule = rule.new; total = total.new }) table.new }
{
    let counted = readings::count(image, events, table);
    *total = counted.unwrap_or(0);
    tell(&counted, rule)
}

// Gives reading number k as a script.
#[unsafe(no_mangle)]
pub extern "C" fn reader_reading(
    image: &[u8],
    events: &[u16],
    k: u32,
    table: &mut [u32],
    room: &mut [u16],
    rule: &mut u16,
) -> u8
    ensures { ReadingIs image.now events.now k table.old room.old
        (record { refusal = result; rule = rule.new }) table.new room.new }
{
    let read = readings::reading(image, events, k, table, room);
    tell(&read, rule)
}

// Gives the readings from number k on as scripts, m of them or as many as there are.
#[unsafe(no_mangle)]
pub extern "C" fn reader_page(
    image: &[u8],
    events: &[u16],
    k: u32,
    m: u32,
    table: &mut [u32],
    room: &mut [u16],
    rule: &mut u16,
    written: &mut u32,
) -> u8
    ensures { PageIs image.now events.now k m table.old room.old
        (record { refusal = result; rule = rule.new; written = written.new }) table.new room.new }
{
    let paged = readings::page(image, events, k, m, table, room);
    *written = paged.unwrap_or(0);
    tell(&paged, rule)
}

// Checks a script.
#[unsafe(no_mangle)]
pub extern "C" fn reader_check(
    image: &[u8],
    events: &[u16],
    script: &[u16],
    rule: &mut u16,
    yes: &mut bool,
) -> u8
    ensures { CheckIs image.now events.now script.now
        (record { refusal = result; rule = rule.new; yes = yes.new }) }
{
    let checked = readings::check(image, events, script);
    *yes = checked.unwrap_or(false);
    tell(&checked, rule)
}

// Finds the number of a script.
#[unsafe(no_mangle)]
pub extern "C" fn reader_number(
    image: &[u8],
    events: &[u16],
    script: &[u16],
    table: &mut [u32],
    rule: &mut u16,
    reading: &mut u32,
) -> u8
    ensures { NumberIs image.now events.now script.now table.old
        (record { refusal = result; rule = rule.new; reading = reading.new }) table.new }
{
    let found = readings::number(image, events, script, table);
    *reading = found.unwrap_or(0);
    tell(&found, rule)
}

// The session without events.
#[unsafe(no_mangle)]
pub extern "C" fn reader_begin(chart: &mut [u64; session::WORDS], count: &mut u64)
    ensures { no_events ≡ record { chart = chart.exit.now; count = count.new } }
{
    let begun = session::begin();
    let words = begun.chart;
    *chart = words;
    *count = begun.count;
}

// Adds an event to a session.
#[unsafe(no_mangle)]
pub extern "C" fn reader_add(
    image: &[u8],
    chart: &mut [u64; session::WORDS],
    count: &mut u64,
    event: u16,
    rule: &mut u16,
    admitted: &mut bool,
    firings: &mut u64,
) -> u8
    ensures { AddIs image.now (record { chart = chart.entry.now; count = count.old }) event
        (record { session = record { chart = chart.exit.now; count = count.new }; firings = firings.new; rule = rule.new; refusal = result; admitted = admitted.new }) }
{
    let before = Session {
        chart: *chart,
        count: *count,
    };
    let added = session::add(image, before, event);
    if let Ok(after) = added {
        let words = after.session.chart;
        *chart = words;
        *count = after.session.count;
        *admitted = after.admitted;
        *firings = after.firings;
    } else {
        *admitted = false;
        *firings = 0;
    }
    tell(&added, rule)
}

// Takes the last event of a session back.
#[unsafe(no_mangle)]
pub extern "C" fn reader_take_back(chart: &mut [u64; session::WORDS], count: &mut u64) -> u8
    ensures { TakeBackIs (record { chart = chart.entry.now; count = count.old })
        (record { session = record { chart = chart.exit.now; count = count.new }; refusal = result }) }
{
    let before = Session {
        chart: *chart,
        count: *count,
    };
    match session::take_back(before) {
        Ok(left) => {
            let words = left.chart;
            *chart = words;
            *count = left.count;
            0
        }
        Err(refusal) => refusal.number(),
    }
}
