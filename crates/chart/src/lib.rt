// Judges a record: fills the chart of a grammar image over events, column by column, and answers verdict, items and firings.
#![tactic(auto)]

ghost use Rattle.std.specs.Prelude.{◌≡◌, ◌≤◌, ◌<◌, ◌^◌, length};
ghost use Rattle.std.specs.declared.result.Result.TheVariants.{Ok};
ghost use Rattle.derivation.specs.Chart.{cells};
ghost use Rattle.image.specs.Image.{most_events};
ghost use Rattle.layout.specs.Layout.{header_bytes, decode};
ghost use Rattle.columns.specs.Fill.{ones_to, TopHas};
ghost use Rattle.chart.specs.Answer.{judged};
ghost use Rattle.chart.specs.Judge.{JudgeIs};

use image::{Grammar, Refusal};

// What judging answers: the verdict, the items and the firings.
#[derive(Clone, Copy, Debug, PartialEq, Eq)]
pub struct Judgement {
    pub admitted: bool,
    pub items: u64,
    pub firings: u64,
}

// The one bits of the first words of a chart.
fn items_of(chart: &[u64], n: usize) -> u64
    requires { (n ≤ length chart.now) × (n < 2 ^ 32) }
    ensures { result ≡ ones_to chart.now n }
{
    let mut total: u64 = 0;
    for word in &chart[..n] {
        total += bits::ones(*word) as u64;
    }
    total
}

// Whether the start symbol stands in the cell of the whole record; where that is empty, whether the grammar admits it.
pub fn top_has(image: &[u8], chart: &[u64], n: usize) -> bool
    requires { (header_bytes ≤ length image.now) × (n < 65536) × (cells n ≤ length chart.now) }
    ensures { TopHas (decode image.now) chart.now n result }
{
    if n == 0 {
        layout::quiet_flag(image) == 1
    } else {
        bits::bit_of(columns::read_cell(chart, 0, n), 0) == 1
    }
}

// Judges a record that nothing refuses: the chart, the verdict, the items and the firings.
pub fn judge_accepted(grammar: Grammar<'_>, events: &[u16], chart: &mut [u64]) -> Judgement
    requires few { length events.now ≤ most_events }
    requires room { cells (length events.now) ≤ length chart.old }
    ensures { JudgeIs grammar.entry.bytes.now events.now chart.old (judged (Ok result)) chart.new }
{
    let n = events.len();
    let firings = columns::fill_chart(grammar, events, chart);
    let admitted = top_has(grammar.bytes, chart, n);
    let items = items_of(chart, derivation::cell_count(n));
    Judgement {
        admitted,
        items,
        firings,
    }
}

// Judges a record: its refusals and then 9, or the chart, the verdict, the items and the firings.
pub fn judge(image: &[u8], events: &[u16], chart: &mut [u64]) -> Result<Judgement, Refusal>
    ensures { JudgeIs image.now events.now chart.old (judged result) chart.new }
{
    let n = events.len();
    let grammar = image::test_record(image, n)?;
    if chart.len() < derivation::cell_count(n) {
        return Err(Refusal::ShortChart);
    }
    Ok(judge_accepted(grammar, events, chart))
}
