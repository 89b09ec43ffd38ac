// The rules over words: the event rules over an event, the pair rules over the words of two cells, and over marks all splits at once.
#![tactic(auto)]

ghost use Rattle.std.specs.Prelude.{◌≡◌, ℕ, ◌+◌, ◌*◌, ◌≤◌, ◌<◌, ◌^◌, length, IfSome};
ghost use Rattle.bits.specs.Truth.{same};
ghost use Rattle.bits.specs.Word.{meet};
ghost use Rattle.derivation.specs.Grammar.{event_rule_count, event_rule};
ghost use Rattle.image.specs.Shown.{shown};
ghost use Rattle.kernel.specs.Fire.{Noted, Concluded, Met, LeafFired, Heard};
ghost use Rattle.groups.specs.Group.{Grouped};
ghost use Rattle.marks.specs.Mark.{Told, SeenIn};
ghost use Rattle.kernel.specs.Apply.{Applied, Callable, Tells, ReadyAt, Ready, over, along};

use groups::Groups;
use image::Grammar;

// A cell's word so far, and the matches counted so far.
#[derive(Clone, Copy)]
pub struct Fired {
    pub word: u64,
    pub count: u64,
}

impl Fired {
    pub const NONE: Fired = Fired { word: 0, count: 0 };
}

// A rule's matches: where there is one, its symbol goes into the word, and all count.
fn note(matches: u64, symbol: u64, was: Fired) -> Fired
    requires { (was.count < 2 ^ 62) × (matches ≤ 128) }
    ensures { Noted matches symbol was result }
{
    if matches == 0 {
        return was;
    }
    Fired {
        word: was.word | symbol,
        count: was.count + matches,
    }
}

// ---- event rules

// 1 where event rule r makes the event, else 0.
fn meets(grammar: Grammar<'_>, r: usize, event: usize) -> u64
    requires { r < event_rule_count (shown grammar) }
    ensures { (result ≡ same (event_rule (shown grammar.entry) r).event event) × (result < 2) }
{
    u64::from(grammar.event_of(r) == event)
}

// The symbol of event rule r, as the word of that one bit.
fn leaf_symbol(grammar: Grammar<'_>, r: usize) -> u64
    requires { r < event_rule_count (shown grammar) }
    ensures { result ≡ 2 ^ (event_rule (shown grammar.entry) r).symbol }
{
    bits::put_bit(0, grammar.symbol_of(r), 1)
}

// The event rules over one event.
fn fire_leaves(grammar: Grammar<'_>, event: usize) -> Fired
    ensures { LeafFired (shown grammar.entry) event result × (result.count ≤ 512) }
{
    let mut f = Fired::NONE;
    for r in 0..grammar.leaf_count() {
        f = note(meets(grammar, r, event), leaf_symbol(grammar, r), f);
    }
    f
}

// The events that there are rules for.
pub fn events_of(grammar: Grammar<'_>) -> [u64; 16]
    ensures { Heard (shown grammar.entry) result (event_rule_count (shown grammar.entry)) }
{
    let mut heard = [0u64; 16];
    for r in 0..grammar.leaf_count() {
        let event = grammar.event_of(r);
        let at = event % 1024 / 64;
        heard[at] = bits::put_bit(heard[at], event % 64, 1);
    }
    heard
}

// The event rules over one event. Where it is known which events there are rules for, those for others are not looked for.
pub fn fire_event(grammar: Grammar<'_>, heard: Option<&[u64; 16]>, event: usize) -> Fired
    requires { IfSome heard (λ h. Heard (shown grammar) h.now (event_rule_count (shown grammar))) }
    ensures { LeafFired (shown grammar.entry) event result × (result.count ≤ 512) }
{
    match heard {
        Some(set) if bits::bit_of(set[event % 1024 / 64], event % 64) == 0 => Fired::NONE,
        _ => fire_leaves(grammar, event),
    }
}

// ---- pair rules

// The pair rules with the left symbol a, one by one, where `matches` tells how often one matches by the word of its right symbol.
fn apply_rules<F: Fn(u64) -> u64>(
    grammar: Grammar<'_>,
    grouped: &Groups,
    a: usize,
    matches: F,
    into: Fired,
) -> Fired
    requires grouped { Grouped (shown grammar) grouped.now }
    requires a_bound { (a < 64) × (into.count + 32768 < 2 ^ 62) }
    requires callable { Callable (F.pre matches) (F.post matches) }
    ensures { (m : ℕ → ℕ) → Tells (F.post matches) m → Applied (shown grammar.entry) m a into result }
{
    let mut f = into;
    for rule in grouped.rules_of(a) {
        f = note(matches(rule.right), rule.symbol, f);
    }
    f
}

// ---- pair rules over two words

// 1 where two words have a bit in common, else 0.
fn shares(v: u64, w: u64) -> u64
    ensures { (result ≡ meet v w) × (result < 2) }
{
    u64::from(v & w != 0)
}

// The pair rules with the left symbol a, which stands in the left word, over the right word: where all their right symbols stand there,
// or none, they need not be applied one by one.
fn fire_group(grammar: Grammar<'_>, grouped: &Groups, a: usize, right: u64, into: Fired) -> Fired
    requires grouped { Grouped (shown grammar) grouped.now }
    requires a_bound { (a < 64) × (into.count + 32768 < 2 ^ 62) }
    ensures { Applied (shown grammar.entry) (over right) a into result }
{
    let head = grouped.heads[a];
    let met = right & head.needs;
    if met == 0 {
        return into;
    }
    if met == head.needs {
        return Fired {
            word: into.word | head.gives,
            count: into.count + (head.to - head.from) as u64,
        };
    }
    apply_rules(grammar, grouped, a, |word| shares(right, word), into)
}

// Makes ready, symbol by symbol, what the rules of each wanted left symbol make beside a right word. All left parts that meet this right part are
// fired by it.
pub fn make_ready(
    grammar: Grammar<'_>,
    grouped: &Groups,
    wanted: u64,
    right: u64,
    made: &mut [Fired; 64],
)
    requires { Grouped (shown grammar) grouped.now }
    ensures { Ready (shown grammar.entry) right wanted made.new }
{
    for a in bits::members(wanted) {
        made[a] = fire_group(grammar, grouped, a, right, Fired::NONE);
    }
}

// What the rules of the left symbol a make, into a cell.
fn take_ready(grammar: Grammar<'_>, made: &[Fired; 64], right: u64, a: usize, into: Fired) -> Fired
    requires ready_at { ReadyAt (shown grammar) right a made.now }
    requires a_bound { (a < 64) × (into.count + 256 < 2 ^ 62) }
    ensures { Applied (shown grammar.entry) (over right) a into result }
{
    let ready = made[a];
    Fired {
        word: into.word | ready.word,
        count: into.count + ready.count,
    }
}

// All the pair rules over two words, with what is ready for the right one: for each set symbol of the left word, what its rules make.
pub fn fire_pairs(
    grammar: Grammar<'_>,
    made: &[Fired; 64],
    left: u64,
    right: u64,
    into: Fired,
) -> Fired
    requires ready { Ready (shown grammar) right left made.now }
    requires count_bound { into.count + 32768 < 2 ^ 62 }
    ensures { Concluded (shown grammar.entry) left right into result × (result.count ≤ into.count + 256) }
{
    if left == 0 {
        return into;
    }
    let mut f = into;
    for a in bits::members(left) {
        f = take_ready(grammar, made, right, a, f);
    }
    f
}

// ---- pair rules over marks

// At how many splits the left symbol a stands beside the symbol of a word that has one.
fn meeting_one(marks: &[u64], r: usize, a: usize, column: &[u64], word: u64) -> u64
    requires r_bound { (r < 96) × (131 * r + 131 ≤ length marks.now) × (131 ≤ length column.now) × Told column.now }
    requires a_bound { (a < 64) × ((s : ℕ) × (s < 64) × (word ≡ 2 ^ s)) }
    ensures { (result ≡ along marks.now r a column.now word) × (result ≤ 128) }
{
    marks::meeting(marks, r, a, column, bits::first_bit(word))
}

// The pair rules with the left symbol a: where none of their right symbols is seen in the column, they need not be applied.
fn fire_marked_group(
    grammar: Grammar<'_>,
    grouped: &Groups,
    marks: &[u64],
    r: usize,
    column: &[u64],
    right: u64,
    a: usize,
    into: Fired,
) -> Fired
    requires grouped { Grouped (shown grammar) grouped.now }
    requires r_bound { (r < 96) × (131 * r + 131 ≤ length marks.now) × (131 ≤ length column.now) × Told column.now × SeenIn column.now 0 right }
    requires a_bound { (a < 64) × (into.count + 32768 < 2 ^ 62) }
    ensures { Applied (shown grammar.entry) (along marks.now r a column.now) a into result }
{
    if right & grouped.heads[a].needs == 0 {
        return into;
    }
    apply_rules(
        grammar,
        grouped,
        a,
        |word| meeting_one(marks, r, a, column, word),
        into,
    )
}

// All the pair rules over all splits at once: for each symbol that is seen in block r, the rules whose left symbol it is.
pub fn fire_marks(
    grammar: Grammar<'_>,
    grouped: &Groups,
    marks: &[u64],
    r: usize,
    column: &[u64],
) -> Fired
    requires grouped { Grouped (shown grammar) grouped.now }
    requires r_bound { (r < 96) × (131 * r + 131 ≤ length marks.now) × (131 ≤ length column.now) }
    requires told { Told marks.now × Told column.now }
    ensures { Met (shown grammar.entry) marks.now r column.now result × (result.count ≤ 32768) }
{
    let mut f = Fired::NONE;
    if marks::apart(marks, r, column) {
        return f;
    }
    let left = marks::seen(marks, r);
    let right = marks::seen(column, 0);
    for a in bits::members(left) {
        f = fire_marked_group(grammar, grouped, marks, r, column, right, a, f);
    }
    f
}
