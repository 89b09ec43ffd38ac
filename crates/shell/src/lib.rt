// The program around its text: what it asks of the system, and nothing else. All that is written is `listing`'s.
#![tactic(auto)]

ghost use Rattle.std.specs.Prelude.{◌≡◌, ℕ, Bool, List, Option, true, false, ◌+◌, ◌-◌, ◌≤◌, ◌<◌, min, length, take, is_some, is_ok, Ok, Err, IfSome, MatchResult};
ghost use Rattle.std.specs.Io.KnownBytes.{Appends, Consumes, IsAtEnd};
ghost use Rattle.io.specs.Counts.{IsPrefixLen};
ghost use Rattle.image.specs.Accepted.{longest_image};
ghost use Rattle.listing.specs.Listing.{most_event_bytes, most_bytes, OutputIs};
ghost use Rattle.shell.specs.Streams.{ReadInto, Shown, read_len};

use std::env::Env;
use std::fs::File;
use std::io::{Read, Write};
use std::{fs, io};

// What a read's answer tells of a buffer that was filled up to `at`: an error is a failure, and a number so many bytes more, 0 at the end of the file.
fn after_read(got: io::Result<usize>, buf: &[u8], at: usize) -> Result<usize, usize>
    requires { at ≤ length buf.now }
    ensures value { MatchResult got (λ n. result ≡ Ok (at + min n (length buf.now - at))) (λ _. result ≡ Err at) }
    ensures len_in_bounds { read_len result ≤ length buf.now }
{
    let room = buf.len() - at;
    match got {
        Ok(n) => Ok(at + n.min(room)),
        Err(_) => Err(at),
    }
}

// Reads until the buffer is full or the file ends, and answers how many bytes stand at the buffer's start; or where a read fails, how many stood
// there before.
fn load<R: Read>(file: &mut R, buf: &mut [u8]) -> Result<usize, usize>
    ensures len_in_bounds { IsPrefixLen (read_len result) buf.new }
    ensures read { Consumes (R.remaining file.old) (R.remaining file.new) (take (read_len result) buf.new) }
    ensures end { is_ok result ≡ true → read_len result < length buf.new → IsAtEnd (R.remaining file.new) }
{
    let mut at = 0;
    while at < buf.len() {
        let got = file.read(&mut buf[at..]);
        let next = after_read(got, buf, at)?;
        if next == at {
            break;
        }
        at = next;
    }
    Ok(at)
}

// What was read of a file, where every read went well.
fn whole(buf: &[u8], read: Result<usize, usize>) -> Option<&[u8]>
    requires { read_len read ≤ length buf.now }
    ensures { (is_some result ≡ is_ok read) × IfSome result (λ bs. bs.now ≡ take (read_len read) buf.now) }
{
    match read {
        Ok(n) => Some(&buf[..n]),
        Err(_) => None,
    }
}

// Room for all that is written.
fn room() -> [u8; listing::MOST_BYTES]
    ensures { most_bytes ≡ length result }
{
    [0; listing::MOST_BYTES]
}

// Writes all of the bytes and answers true, or stops at the first write that takes nothing or fails.
fn write_out<W: Write>(to: &mut W, bytes: &[u8]) -> bool
    ensures front { (n : ℕ) × Appends (W.contents to.old) (W.contents to.new) (take n bytes.now) }
    ensures short { result ≡ false → (n : ℕ) × (n < length bytes.now) × Appends (W.contents to.old) (W.contents to.new) (take n bytes.now) }
    ensures all { result ≡ true → Appends (W.contents to.old) (W.contents to.new) bytes.now }
{
    let mut at = 0;
    while at < bytes.len() {
        match to.write(&bytes[at..]) {
            Ok(0) | Err(_) => return false,
            Ok(n) => at += n,
        }
    }
    true
}

// Writes out what is to be written of two files, of which a and b were read into the buffers. Of a longer file such a buffer holds the bytes that
// decide.
fn show<W: Write, E: Write>(
    out: &mut W,
    err: &mut E,
    image: &[u8],
    a: Result<usize, usize>,
    events: &[u8],
    b: Result<usize, usize>,
)
    requires longest_image_in_bounds { (longest_image < length image.now) × (most_event_bytes < length events.now) }
    requires len_in_bounds { (read_len a ≤ length image.now) × (read_len b ≤ length events.now) }
    ensures { (bs : List ℕ) × OutputIs (is_ok a) (take (read_len a) image.now) (is_ok b) (take (read_len b) events.now) bs
        × Shown (W.contents out.old) (W.contents out.new) (E.contents err.old) (E.contents err.new) bs }
{
    let mut text = room();
    let size = listing::write_output(whole(image, a), whole(events, b), &mut text);
    if !write_out(out, &text[..size]) {
        write_out(err, b"standard output: not all was written\n");
    }
}

// Of a file that could not be opened nothing is read.
fn load_opened<R: Read>(file: &mut Option<R>, buf: &mut [u8]) -> Result<usize, usize>
    ensures len_in_bounds { IsPrefixLen (read_len result) buf.new }
    ensures room { length buf.new ≡ length buf.old }
    ensures read { ReadInto R.remaining (length buf.new) file.old file.new (is_ok result) (take (read_len result) buf.new) }
{
    match file {
        Some(file) => load(file, buf),
        None => Err(0),
    }
}

// The program on two files that were opened, or could not be. Both are read, and closed, before anything is written.
fn list_opened<R: Read, S: Read, W: Write, E: Write>(
    mut image_file: Option<R>,
    mut event_file: Option<S>,
    out: &mut W,
    err: &mut E,
)
where
    R: Drop,
    S: Drop,
    ensures { (image_left : Option R) × (event_left : Option S) × (image_ok event_ok : Bool) × (image events bs : List ℕ)
        × ReadInto R.remaining (longest_image + 1) image_file image_left image_ok image
        × ReadInto S.remaining (most_event_bytes + 1) event_file event_left event_ok events
        × OutputIs image_ok image event_ok events bs
        × Shown (W.contents out.old) (W.contents out.new) (E.contents err.old) (E.contents err.new) bs }
{
    let mut image = [0u8; listing::IMAGE_BYTES];
    let mut events = [0u8; listing::EVENT_BYTES];
    let a = load_opened(&mut image_file, &mut image);
    let b = load_opened(&mut event_file, &mut events);
    drop(image_file);
    drop(event_file);
    show(out, err, &image, a, &events, b);
}

// Opens a file by its name. std takes a name as text, so one that is not UTF-8 opens no file.
fn open(rt: &HostRuntime, path: &[u8]) -> Option<File> {
    let name = str::from_utf8(path).ok()?;
    fs::open(rt, name).ok()
}

// The program on two files by name.
pub fn list(rt: &HostRuntime, image_path: &[u8], event_path: &[u8]) {
    let image_file = open(rt, image_path);
    let event_file = open(rt, event_path);
    list_opened(image_file, event_file, &mut rt.stdout(), &mut rt.stderr());
}

// The argument i, at the buffer's start; answers its length, 0 where it is missing or longer than the buffer.
fn argument(rt: &HostRuntime, i: usize, buf: &mut [u8]) -> usize
    ensures { result ≤ length buf.new }
{
    rt.arg(i, buf).unwrap_or(0)
}

// The program on arguments i and i + 1. A missing one leaves its path empty, and no file has an empty name.
pub fn run_at(rt: &HostRuntime, i: usize)
    requires { i < 1024 }
{
    let mut grammar = [0u8; 4096];
    let n = argument(rt, i, &mut grammar);
    let mut events = [0u8; 4096];
    let m = argument(rt, i + 1, &mut events);
    list(rt, &grammar[..n], &events[..m]);
}
