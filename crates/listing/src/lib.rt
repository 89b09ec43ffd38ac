// What the program writes, as bytes: a refusal, or how many readings a record has and the first of them; or that a file is not there.
#![tactic(auto)]

mod refuse; // the refusals
mod lines; // a line for each script

ghost use Rattle.std.specs.Prelude.{◌≡◌, [], ◌∷◌, ℕ, ◌+◌, ◌≤◌, length, take, drop, is_some};
ghost use Rattle.image.specs.Image.{most_events};
ghost use Rattle.image.specs.Answer.{number_of, rule_of};
ghost use Rattle.image.specs.Shown.{shown};
ghost use Rattle.table.specs.Table.{table_words};
ghost use Rattle.text.specs.Put.{Put};
ghost use Rattle.listing.specs.Listing.{most_words, most_bytes, refused_words, refused_line, or_more, heading, listing, ListingIs, no_file_line, OutputIs, Written, bytes_shown};

use image::{Grammar, Refusal};
use table::Counts;

// The scripts that are listed at most.
const MOST_LISTED: u32 = 100;

// The words of the program's count table.
const TABLE_WORDS: usize = 16384;

// The words of the longest script.
const SCRIPT_WORDS: usize = 2 * (2 * image::MOST_EVENTS - 1);

// So many bytes hold any listing: a heading, and lines with at most five digits and a byte behind them for each word.
pub const MOST_BYTES: usize = 64 + MOST_LISTED as usize * (6 * SCRIPT_WORDS + 1);

// So many bytes of a grammar file and of an event file decide: one more than the longest that is not refused for its length.
pub const IMAGE_BYTES: usize = image::LONGEST_IMAGE + 1;

pub const EVENT_BYTES: usize = 2 * image::MOST_EVENTS + 1;

// How many numbers tell a refusal: 6 and 7 name a rule.
fn told(refusal: Refusal) -> usize
    ensures { (result ≤ 2) × ((rule : ℕ) → take result (number_of refusal ∷ rule ∷ []) ≡ refused_words (number_of refusal) rule) }
{
    match refusal {
        Refusal::UnknownSymbol(_) | Refusal::OutOfOrder(_) => 2,
        _ => 1,
    }
}

fn write_refused(out: &mut [u8], refusal: Refusal) -> usize
    requires { 64 ≤ length out.old }
    ensures { (result ≤ length out.new) × Put (refused_line (number_of refusal) (rule_of refusal)) out.old 0 result out.new }
{
    let behind = text::put_bytes(out, 0, b"refused ");
    let words = [u16::from(refusal.number()), refusal.rule()];
    let n = told(refusal);
    text::put_line(out, behind, &words[..n])
}

fn put_or_more(out: &mut [u8], at: usize, total: u32) -> usize
    requires { at + 8 ≤ length out.old }
    ensures { (result ≤ at + 8) × Put (or_more total) out.old at result out.new }
{
    if total == table::LIMIT {
        text::put_bytes(out, at, b" or more")
    } else {
        at
    }
}

fn write_heading(out: &mut [u8], total: u32) -> usize
    requires { 64 ≤ length out.old }
    ensures { (result ≤ 28) × Put (heading total) out.old 0 result out.new }
{
    let behind = text::put_bytes(out, 0, b"readings ");
    let digits = text::put_number(out, behind, total);
    let end = put_or_more(out, digits, total);
    text::put_byte(out, end, b'\n')
}

// The listing of an accepted image and a record that is not refused.
fn write_readings(grammar: Grammar<'_>, events: &[u16], out: &mut [u8]) -> usize
    requires events_len_bound { (length events.now ≤ most_events) × (table_words (shown grammar).symbols (length events.now) ≤ most_words) }
    requires most_bytes_in_bounds { most_bytes ≤ length out.old }
    ensures { (result ≤ length out.new) × Put (listing (shown grammar.entry) events.now) out.old 0 result out.new }
{
    let mut table = [0u32; TABLE_WORDS];
    let mut room = [0u16; MOST_LISTED as usize * SCRIPT_WORDS];
    let paged = readings::page(grammar.bytes, events, 0, MOST_LISTED, &mut table, &mut room);
    let total = table::total_in(Counts {
        grammar,
        events,
        table: &table,
    });
    let end = write_heading(out, total);
    let words = derivation::script_words(events.len());
    lines::write_lines(&room, words, paged.unwrap_or(0), out, end)
}

// What is written of the bytes of two files: a refusal, or the listing.
fn write_listing(image: &[u8], events: &[u8], out: &mut [u8]) -> usize
    requires { most_bytes ≤ length out.old }
    ensures { (result ≤ length out.new) × ListingIs image.now events.now (take result out.new)
        × (drop result out.new ≡ drop result out.old) }
{
    match refuse::test_program(image, events) {
        Ok(grammar) => {
            let mut room = [0u16; image::MOST_EVENTS];
            let n = text::read_words(events, &mut room);
            write_readings(grammar, &room[..n], out)
        }
        Err(refusal) => write_refused(out, refusal),
    }
}

fn write_no_file(out: &mut [u8]) -> usize
    requires { 64 ≤ length out.old }
    ensures { (result ≤ length out.new) × Put no_file_line out.old 0 result out.new }
{
    text::put_bytes(out, 0, b"no file\n")
}

// What is written of two files, of which each could be opened and read, or not.
fn write_files(image: Option<&[u8]>, events: Option<&[u8]>, out: &mut [u8]) -> usize
    requires { most_bytes ≤ length out.old }
    ensures { (result ≤ length out.new)
        × OutputIs (is_some image.entry) (bytes_shown image.entry) (is_some events.entry) (bytes_shown events.entry) (take result out.new)
        × (drop result out.new ≡ drop result out.old) }
{
    match (image, events) {
        (Some(image), Some(events)) => write_listing(image, events, out),
        _ => write_no_file(out),
    }
}

// All that the program writes, for the bytes of a grammar file and of an event file, of which each could be opened and read, or not;
// answers how many bytes.
pub fn write_output(image: Option<&[u8]>, events: Option<&[u8]>, out: &mut [u8]) -> usize
    ensures { Written (is_some image.entry) (bytes_shown image.entry) (is_some events.entry) (bytes_shown events.entry) out.old result out.new }
{
    if out.len() < MOST_BYTES {
        return 0;
    }
    write_files(image, events, out)
}
