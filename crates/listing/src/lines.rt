// A line for each script of a page.
ghost use Rattle.std.specs.Prelude.{◌*◌, ◌≤◌, length, take, drop};
ghost use Rattle.derivation.specs.Tree.{script_word_count};
ghost use Rattle.derivation.specs.Derivations.{join};
ghost use Rattle.image.specs.Image.{most_events};
ghost use Rattle.text.specs.Text.{line};
ghost use Rattle.text.specs.Put.{Put};
ghost use Rattle.listing.specs.Listing.{most_listed, most_bytes};

// The lines of the first `count` scripts in the room, of `words` words each, from the place `at` on.
pub fn write_lines(room: &[u16], words: usize, count: u32, out: &mut [u8], at: usize) -> usize
    requires words_bound { (words ≤ script_word_count most_events) × (count ≤ most_listed) × (count * words ≤ length room.now) }
    requires at_bound { (at ≤ 28) × (most_bytes ≤ length out.old) }
    ensures { (result ≤ length out.new)
        × Put (join count (λ x. line (take words (drop (x * words) room.now)))) out.old at result out.new }
{
    let mut end = at;
    let mut from: usize = 0;
    for x in 0..count {
        let next = from + words;
        end = text::put_line(out, end, &room[from..next]);
        from = next;
    }
    end
}
