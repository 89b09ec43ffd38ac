// A judgement over words of a chart on the stack, whose bytes are then lent memory's. Of two sizes the smaller that holds the need is
// taken, each in a function of its own, so that a short record does not pay for the other.
ghost use Rattle.std.specs.Prelude.{◌*◌, ◌^◌, ◌≤◌, ◌<◌, length};
ghost use Rattle.std.specs.declared.result.Result.TheVariants.{Ok};
ghost use Rattle.derivation.specs.Chart.{cells};
ghost use Rattle.image.specs.Shown.{shown};
ghost use Rattle.chart.specs.Answer.{judged};
ghost use Rattle.lent.specs.Lent.{LendsChart, JudgedIn};

use chart::Judgement;
use image::Grammar;

// The words for 32 events, and for as many as a record may have.
const SMALL: usize = 528;

const LARGE: usize = image::MOST_EVENTS * (image::MOST_EVENTS + 1) / 2;

fn judge_in(grammar: Grammar<'_>, events: &[u16], words: &mut [u64], chart: &mut [u8]) -> Judgement
    requires { LendsChart events.now chart.old × (cells (length events.now) ≤ length words.old) }
    ensures { JudgedIn (shown grammar.entry) events.now chart.old (judged (Ok result)) chart.new }
{
    let judged = chart::judge_accepted(grammar, events, words);
    let need = derivation::cell_count(events.len());
    packed::write(&words[..need], chart);
    judged
}

// Never part of its caller, whose frame would hold the largest size in every call.
#[inline(never)]
fn judge_sized<const N: usize>(grammar: Grammar<'_>, events: &[u16], chart: &mut [u8]) -> Judgement
    requires { LendsChart events.now chart.old × (cells (length events.now) ≤ N) × (8 * N < 2 ^ 63) }
    ensures { JudgedIn (shown grammar.entry) events.now chart.old (judged (Ok result)) chart.new }
{
    let mut words = [0u64; N];
    judge_in(grammar, events, &mut words, chart)
}

pub fn judge(grammar: Grammar<'_>, events: &[u16], chart: &mut [u8]) -> Judgement
    requires { LendsChart events.now chart.old }
    ensures { JudgedIn (shown grammar.entry) events.now chart.old (judged (Ok result)) chart.new }
{
    let need = derivation::cell_count(events.len());
    if need <= SMALL {
        judge_sized::<SMALL>(grammar, events, chart)
    } else {
        judge_sized::<LARGE>(grammar, events, chart)
    }
}
