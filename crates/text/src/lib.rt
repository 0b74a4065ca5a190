// What every layer above speaks of: bytes, the characters of names, refusals, texts written over a buffer.
#![tactic(auto)]

ghost use Rattle.std.specs.Prelude.{◌≡◌, cond, length, replicate, leb};
ghost use Rattle.text.specs.Codes.{number_of};
ghost use Rattle.text.specs.Names.{allowed, all_allowed, is_designator};
ghost use Rattle.text.specs.Equal.{same_bytes};
ghost use Rattle.text.specs.Over.{over};

// Why something is refused. The numbers are those of the documents.
#[derive(Clone, Copy, Debug, PartialEq, Eq)]
pub enum Code {
    // a text of another length than a report, or longer than a command or a packed field may be
    WrongLength = 1,
    // more to write than there is room for
    NoRoom = 2,
    // another byte than the one that stands there always
    WrongFixed = 3,
    // a byte that its field may not have
    NotAllowed = 4,
    // a number outside its limits
    OutOfRange = 5,
    // a number in another spelling than its one
    OtherSpelling = 6,
    // fields that don't go together
    Disagree = 7,
    // a text that ends inside a field, or goes on behind its last
    WrongEnd = 8,
    // no slot is free
    BoardFull = 9,
    BoardInvalid = 10,
    // no command waits for that aircraft
    NothingWaits = 11,
    SettingsInvalid = 12,
    // more than an office may set
    NotGranted = 13,
    JournalBroken = 14,
}

// Why, and at which byte.
#[derive(Clone, Copy, Debug, PartialEq, Eq)]
pub struct Refusal {
    pub code: Code,
    pub place: usize,
}

impl Code {
    // The refusal with this code, at a byte.
    pub fn at(self, place: usize) -> Refusal
        ensures { result ≡ record { code = self; place = place } }
    {
        Refusal { code: self, place }
    }

    // Its number in the documents.
    pub fn number(self) -> u8
        ensures { result ≡ number_of self }
    {
        self as u8
    }
}

// Airfield and designator bytes are `A`-`Z` or `0`-`9`.
#[tactic(auto, unfolding(crate::specs::Names::allowed))]
pub fn is_allowed(b: u8) -> bool
    ensures { result ≡ allowed b }
{
    matches!(b, b'A'..=b'Z' | b'0'..=b'9')
}

// Whether every byte is one that a name may have. The answers are gathered and the loop has one way out, so it runs many bytes at a time.
pub fn all_allowed(s: &[u8]) -> bool
    ensures { result ≡ all_allowed s.now }
{
    let mut fine = true;
    for &b in s {
        fine &= is_allowed(b);
    }
    fine
}

// Whether it is a designator: six allowed bytes.
pub fn is_designator(s: &[u8]) -> bool
    ensures { result ≡ is_designator s.now }
{
    s.len() == 6 && all_allowed(s)
}

// Whether two texts are the same bytes.
pub fn same_bytes(a: &[u8], b: &[u8]) -> bool
    ensures { result ≡ same_bytes a.now b.now }
{
    a == b
}

// Writes `s` over the start of `d`; where it has no room there, `d` stays as it is.
// Byte by byte, from which `memcpy` is made: the library's copy would ask C for `memmove` as well.
pub fn copy(d: &mut [u8], s: &[u8])
    ensures { d.new
        ≡ cond (leb (length s.now) (length d.old)) (over d.old 0 s.now) d.old }
{
    if s.len() <= d.len() {
        for i in 0..s.len() {
            d[i] = s[i];
        }
    }
}

// Writes `b` over all of `out`.
pub fn fill(out: &mut [u8], b: u8)
    ensures { out.new ≡ replicate (length out.old) b }
{
    out.fill(b);
}
