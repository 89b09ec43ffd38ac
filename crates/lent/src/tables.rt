// Counting and reading over words of a table on the stack, whose bytes are then lent memory's. Of five sizes the smallest that holds the
// need is taken, each in a function of its own, so that a short record does not pay for the longest.
ghost use Rattle.std.specs.Prelude.{◌*◌, ◌^◌, ◌≤◌, ◌<◌, length};
ghost use Rattle.image.specs.Shown.{shown};
ghost use Rattle.table.specs.Table.{table_words};
ghost use Rattle.lent.specs.Lent.{LendsTable, TakenIs};

use image::{Grammar, Refusal};
use table::Counts;

// What a page answers, and how many readings there are, held at the limit.
#[derive(Clone, Copy)]
pub struct Taken {
    pub paged: Result<u32, Refusal>,
    pub total: u32,
}

// A page of m readings from number k on, none or one: counting asks for none.
fn take_in(
    grammar: Grammar<'_>,
    events: &[u16],
    k: u32,
    m: u32,
    words: &mut [u32],
    table: &mut [u8],
    room: &mut [u16],
) -> Taken
    requires { LendsTable (shown grammar) events.now m table.old room.old
        × (table_words (shown grammar).symbols (length events.now) ≤ length words.old) }
    ensures { TakenIs grammar.entry.bytes.now events.now k m table.old room.old result table.new room.new }
{
    let paged = readings::page_accepted(grammar, events, k, m, words, room);
    let total = table::total_in(Counts {
        grammar,
        events,
        table: words,
    });
    let need = table::words_needed(grammar.symbol_count(), events.len());
    packed::write(&words[..need], table);
    Taken { paged, total }
}

// Never part of its caller, whose frame would hold the largest size in every call.
#[inline(never)]
fn take_sized<const N: usize>(
    grammar: Grammar<'_>,
    events: &[u16],
    k: u32,
    m: u32,
    table: &mut [u8],
    room: &mut [u16],
) -> Taken
    requires { LendsTable (shown grammar) events.now m table.old room.old
        × (table_words (shown grammar).symbols (length events.now) ≤ N) × (4 * N < 2 ^ 63) }
    ensures { TakenIs grammar.entry.bytes.now events.now k m table.old room.old result table.new room.new }
{
    let mut words = [0u32; N];
    take_in(grammar, events, k, m, &mut words, table, room)
}

pub fn take(
    grammar: Grammar<'_>,
    events: &[u16],
    k: u32,
    m: u32,
    table: &mut [u8],
    room: &mut [u16],
) -> Taken
    requires { LendsTable (shown grammar) events.now m table.old room.old }
    ensures { TakenIs grammar.entry.bytes.now events.now k m table.old room.old result table.new room.new }
{
    match table::words_needed(grammar.symbol_count(), events.len()) {
        ..=2048 => take_sized::<2048>(grammar, events, k, m, table, room),
        ..=16384 => take_sized::<16384>(grammar, events, k, m, table, room),
        ..=65536 => take_sized::<65536>(grammar, events, k, m, table, room),
        ..=133120 => take_sized::<133120>(grammar, events, k, m, table, room),
        _ => take_sized::<297984>(grammar, events, k, m, table, room),
    }
}
