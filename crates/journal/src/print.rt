// A journal printed, one line per entry, newest first; and the walk that tells how long that is.
ghost use Rattle.std.specs.Prelude.{◌≡◌, ◌+◌, ◌≤◌, length};
ghost use Rattle.text.specs.Over.{over};
ghost use Rattle.journal.specs.Journal.{entry_at, walk};
ghost use Rattle.journal.specs.Printed.{digits_of, word, offset_word, line, print_told, printed_over};
ghost use Rattle.journal.specs.Inner.{length_told, with_size, LinesFit, LinesOver};

use crate::step::last;
use field::write::put_decimal;
use text::{Code, Refusal, copy};

// How many digits an offset has.
#[tactic(auto, unfolding(crate::specs::Printed::digits_of))]
fn digits_of(n: usize) -> usize
    ensures { (result ≡ digits_of n) × (result ≤ 5) }
{
    match n {
        0..=9 => 1,
        10..=99 => 2,
        100..=999 => 3,
        1000..=9999 => 4,
        _ => 5,
    }
}

// How long the lines of all entries are together. A broken journal is 14.
pub fn printed_size(journal: &[u8], end: usize) -> Result<usize, Refusal>
    ensures { result ≡ length_told (walk (with_size journal.now) journal.now end 0) }
{
    let mut here = end;
    let mut size: usize = 0;
    while let Some(entry) = last(journal, here)? {
        size += digits_of(entry.at) + (9 + entry.length);
        here = entry.at;
    }
    Ok(size)
}

// An offset's digits and a space, over the start of `d`.
fn put_offset(at: usize, d: &mut [u8]) -> usize
    requires { digits_of at + 1 ≤ length d.old }
    ensures { (result ≡ digits_of at + 1) × (d.new ≡ over d.old 0 (offset_word at)) }
{
    let w = digits_of(at);
    put_decimal(&mut d[0..w], at);
    d[w] = b' ';
    w + 1
}

// A text and the byte behind it, over the start of `d`.
fn put_word(s: &[u8], behind: u8, d: &mut [u8])
    requires { length s.now + 1 ≤ length d.old }
    ensures { d.new ≡ over d.old 0 (word s.now behind) }
{
    let n = s.len();
    copy(&mut d[0..n], s);
    d[n] = behind;
}

// One entry's line, over the start of `d`.
fn put_line(journal: &[u8], at: usize, n: usize, d: &mut [u8]) -> usize
    requires { (at + 6 + n ≤ length journal.now) × (digits_of at + (9 + n) ≤ length d.old) }
    ensures { (result ≡ digits_of at + (9 + n)) × (d.new ≡ over d.old 0 (line at (entry_at journal.now at n))) }
{
    let text = at + 6;
    let end = text + n;
    let who = put_offset(at, d);
    put_word(&journal[at..text], b' ', &mut d[who..]);
    let rest = who + 7;
    put_word(&journal[text..end], b'\n', &mut d[rest..]);
    rest + (n + 1)
}

// The lines of all entries of a sound journal, over the start of `out`.
fn put_lines(journal: &[u8], end: usize, out: &mut [u8])
    requires { LinesFit journal.now end (length out.old) }
    ensures { LinesOver journal.now end out.old out.new }
{
    let mut here = end;
    let mut written: usize = 0;
    while let Ok(Some(entry)) = last(journal, here) {
        written += put_line(journal, entry.at, entry.length, &mut out[written..]);
        here = entry.at;
    }
}

// 14, then 2 where the buffer is shorter than the text; else exactly the lines are written, and their length answered.
pub fn print(journal: &[u8], end: usize, out: &mut [u8]) -> Result<usize, Refusal>
    ensures { (result ≡ print_told journal.now end (length out.old))
        × (out.new ≡ printed_over journal.now end out.old) }
{
    let size = printed_size(journal, end)?;
    if out.len() < size {
        return Err(Code::NoRoom.at(0));
    }
    put_lines(journal, end, out);
    Ok(size)
}
