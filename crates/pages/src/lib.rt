// Readings in a row: the first by its number, and each other from the one before it. The table has to be filled.
#![tactic(auto)]

mod next; // what comes behind a rule and a split
mod step; // from a script to the next

ghost use Rattle.std.specs.Prelude.{◌≡◌, ◌++◌, ◌+◌, ◌*◌, ◌≤◌, ◌<◌, length, drop};
ghost use Rattle.derivation.specs.Tree.{script_word_count};
ghost use Rattle.derivation.specs.Derivations.{readings, page_of};
ghost use Rattle.image.specs.Shown.{shown};
ghost use Rattle.table.specs.Table.{limit};

use step::step_script;
use table::Counts;

// Writes the scripts of readings number k to k + count - 1 to the front of the room, one after the other; those of an empty record have no
// words.
pub fn write_page(counts: Counts<'_>, k: u32, count: u32, room: &mut [u16])
    requires events_len_bound { (length counts.events.now < 65536) × (count * script_word_count (length counts.events.now) ≤ length room.old) }
    requires count_bound { (k + count ≤ limit) × (k + count ≤ length (readings (shown counts.grammar) counts.events.now)) }
    ensures { room.new ≡ page_of (shown counts.entry.grammar) counts.entry.events.now k count
        ++ drop (count * script_word_count (length counts.entry.events.now)) room.old }
{
    let n = counts.events.len();
    if n == 0 || count == 0 {
        return;
    }
    unrank::write_reading(counts, k, room);
    let words = derivation::script_words(n);
    let mut at = 0;
    for _ in 1..count {
        let end = at + words;
        room.copy_within(at..end, end);
        step_script(&counts, 0, 0, n, &mut room[end..]);
        at = end;
    }
}
