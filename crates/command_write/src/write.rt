// Writing a command: the record is checked first, then the room, and only then is a byte written.
ghost use Rattle.std.specs.Prelude.{◌≡◌, ◌∷◌, [], ◌++◌, ◌+◌, ◌≤◌, length, drop, Ok};
ghost use Rattle.text.specs.Over.{over};
ghost use Rattle.section.specs.Layout.{numbers};
ghost use Rattle.section.specs.Inner.{going_on};
ghost use Rattle.command.specs.Text.{awr04};
ghost use Rattle.command.specs.Record.{digit_bytes, sections_text, command_text, command_allowed, write_seen, left_by};
ghost use Rattle.command_write.specs.Writing.{wrote};
ghost use Rattle.command_write.specs.Inner.{numbered_text, head_text, AllNamed, Digits};

use crate::record::pass_record;
use command::Command;
use field::record::wide;
use settings::Fixed;
use settings::numbers::{fixed_of, put_fixed};
use settings::section2::put_named_regions;
use settings::section3::put_named_airports;
use text::{Code, Refusal, copy};

// `AWR04`, one fixed group.
fn put_awr04(d: &mut [u8])
    requires { 5 ≤ length d.old }
    ensures { d.new ≡ over d.old 0 awr04 }
{
    copy(d, b"AWR04");
}

// Each value as its digit.
fn put_digits(values: &[u8], d: &mut [u8])
    requires { (length values.now ≤ length d.old) × Digits values.now }
    ensures { d.new ≡ over d.old 0 (digit_bytes values.now) }
{
    for (i, &v) in values.iter().enumerate() {
        d[i] = b'0' + v;
    }
}

// `AWR04` and the flags.
fn put_flags(flags: [u8; 7], d: &mut [u8])
    requires { (12 ≤ length d.old) × Digits flags }
    ensures { d.new ≡ over d.old 0 (awr04 ++ digit_bytes flags) }
{
    put_awr04(&mut d[0..5]);
    put_digits(&flags, &mut d[5..12]);
}

// The downlink digit, the indicators, `/`.
fn put_indicators(downlink: u8, named: [u8; 8], d: &mut [u8])
    requires { (10 ≤ length d.old) × (downlink ≤ 9) × Digits named }
    ensures { d.new ≡ over d.old 0 ((48 + downlink) ∷ (digit_bytes named ++ 47 ∷ [])) }
{
    d[0] = b'0' + downlink;
    put_digits(&named, &mut d[1..9]);
    d[9] = b'/';
}

// The first 22 bytes.
fn put_head(c: Command, d: &mut [u8])
    requires { (22 ≤ length d.old) × Digits c.settings.flags × (c.downlink ≤ 9) × Digits c.named }
    ensures { d.new ≡ over d.old 0 (head_text c) }
{
    put_flags(c.settings.flags, &mut d[0..12]);
    put_indicators(c.downlink, c.named, &mut d[12..22]);
}

// Sections 2 and 3, those that are named.
fn put_lists(c: Command, d: &mut [u8]) -> usize
    requires { AllNamed (2 ∷ 3 ∷ []) c × (length (sections_text (2 ∷ 3 ∷ []) c) ≤ length d.old) }
    ensures { (result ≡ length (sections_text (2 ∷ 3 ∷ []) c)) × (d.new ≡ over d.old 0 (sections_text (2 ∷ 3 ∷ []) c)) }
{
    let at = put_named_regions(c.named[0] == 2, c.settings.regions, d);
    let n = put_named_airports(c.named[1] == 3, c.settings.airports, &mut d[at..]);
    at + n
}

// Sections 4 to 9, those that are named, each into the part that starts where it begins.
fn put_numbered(x: Fixed, named: [u8; 8], d: &mut [u8]) -> usize
    requires { length (numbered_text (drop 2 numbers) x named) ≤ length d.old }
    ensures { (result ≡ length (numbered_text (drop 2 numbers) x named)) × (d.new ≡ over d.old 0 (numbered_text (drop 2 numbers) x named)) }
{
    let mut at = 0;
    for k in 4..10 {
        at += put_fixed(wide(named[k - 2]) == k, x, k, &mut d[at..]);
    }
    at
}

// The sections that are named, each into the part of the buffer that starts where it begins.
fn put_sections(c: Command, d: &mut [u8]) -> usize
    requires { AllNamed (2 ∷ 3 ∷ []) c × (length (sections_text numbers c) ≤ length d.old) }
    ensures { (result ≡ length (sections_text numbers c))
        × (d.new ≡ over d.old 0 (sections_text numbers c)) }
{
    let at = put_lists(c, d);
    let n = put_numbered(fixed_of(c.settings), c.named, &mut d[at..]);
    at + n
}

// The whole command at the start of the buffer: the head, then the sections; the answer is how many bytes that is.
fn put(c: Command, d: &mut [u8]) -> usize
    requires { (command_allowed c ≡ Ok tt) × (length (command_text c) ≤ length d.old) }
    ensures { (result ≡ length (command_text c)) × (d.new ≡ over d.old 0 (command_text c)) }
{
    put_head(c, d);
    let n = put_sections(c, &mut d[22..]);
    22 + n
}

// The record, then the room.
fn pass_room(c: Command, room: usize) -> Result<usize, Refusal>
    ensures { result ≡ going_on (write_seen c room) (length (command_text c)) }
{
    let n = pass_record(c)?;
    if room < n {
        return Err(Code::NoRoom.at(0));
    }
    Ok(n)
}

// A command at the start of what is lent, and how long its text is; or the refusal, and nothing is written.
pub fn write(c: Command, out: &mut [u8]) -> Result<usize, Refusal>
    ensures { (result ≡ wrote (write_seen c (length out.old)) (length (command_text c)))
        × (out.new ≡ left_by (write_seen c (length out.old)) (command_text c) out.old) }
{
    pass_room(c, out.len())?;
    Ok(put(c, out))
}
