// When two commands may be sent either way round: which flags and sections both set, and differently.
#![tactic(auto)]

ghost use Rattle.std.specs.Prelude.{◌≡◌, ◌≤◌, length};
ghost use Rattle.section.specs.Layout.{numbers};
ghost use Rattle.join.specs.Inner.{IsWalked};
ghost use Rattle.commute.specs.Commute.{apart, flag_apart, section_apart, flag_numbers, bits_of, compared};

use command::check::walk;
use join::walked::Walked;
use text::{Refusal, same_bytes};

// The flags and the sections that both set differently, a bit for each.
#[derive(Clone, Copy, Debug, PartialEq, Eq)]
pub struct Apart {
    pub flags: u8,
    pub sections: u8,
}

// What refuses the first text, or the second.
#[derive(Clone, Copy, Debug, PartialEq, Eq)]
pub enum Fault {
    First(Refusal),
    Second(Refusal),
}

// Whether both set a flag, and differently. A flag `9` sets none.
fn is_apart(a: u8, b: u8) -> bool
    ensures { result ≡ apart a b }
{
    (a != b'9') & (b != b'9') & (a != b)
}

// The flags that both set differently: the last of them first, so that the first is bit 0.
fn flags_apart(a: &[u8], b: &[u8]) -> u8
    requires { (22 ≤ length a.now) × (22 ≤ length b.now) }
    ensures { result ≡ bits_of (flag_apart a.now b.now) flag_numbers }
{
    let mut bits: u8 = 0;
    for i in (0..7).rev() {
        bits = 2 * bits + u8::from(is_apart(a[5 + i], b[5 + i]));
    }
    bits
}

// Whether both name section k, and with other bytes.
fn is_section_apart<'a>(k: usize, a: &Walked<'a>, b: &Walked<'a>) -> bool
    requires { (2 ≤ k) × (k ≤ 9) × IsWalked a.now × IsWalked b.now }
    ensures { result ≡ section_apart a.now.text.now b.now.text.now k }
{
    a.is_named(k) && b.is_named(k) && !same_bytes(a.section(k), b.section(k))
}

// The sections that both set differently, the last of them first.
fn sections_apart<'a>(a: &Walked<'a>, b: &Walked<'a>) -> u8
    requires { IsWalked a.now × IsWalked b.now }
    ensures { result ≡ bits_of (section_apart a.now.text.now b.now.text.now) numbers }
{
    let mut bits: u8 = 0;
    for k in (2..10).rev() {
        bits = 2 * bits + u8::from(is_section_apart(k, a, b));
    }
    bits
}

// The first text's refusals, then the second's. Each text is gone through once: its check notes where its sections stand.
pub fn compare(a: &[u8], b: &[u8]) -> Result<Apart, Fault>
    ensures { result ≡ compared a.now b.now }
{
    let mut first = Walked {
        text: a,
        places: [0; 11],
    };
    walk(a, &mut first.places).map_err(Fault::First)?;
    let mut second = Walked {
        text: b,
        places: [0; 11],
    };
    walk(b, &mut second.places).map_err(Fault::Second)?;
    Ok(Apart {
        flags: flags_apart(a, b),
        sections: sections_apart(&first, &second),
    })
}
