// Two commands joined into one: each flag and section from the second text where it sets one, else from the first; the
// larger downlink digit is kept.
#![tactic(auto)]

mod head;
mod sections;
pub mod walked;

ghost use Rattle.std.specs.Prelude.{◌≡◌, ◌≤◌, length};
ghost use Rattle.text.specs.Over.{over};
ghost use Rattle.join.specs.Join.{join_text, join, joined_over, told};
ghost use Rattle.join.specs.Inner.{IsWalked};

use crate::head::put_head;
use crate::sections::{put_sections, sections_size};
use crate::walked::Walked;
use command::check::walk;
use text::Refusal;

// Why two texts are not joined: what refuses the first, what refuses the second, or no room for the joined text.
#[derive(Clone, Copy, Debug, PartialEq, Eq)]
pub enum Fault {
    First(Refusal),
    Second(Refusal),
    Room,
}

// How long the joined text is.
fn joined_size<'a>(a: &Walked<'a>, b: &Walked<'a>) -> usize
    requires { IsWalked a.now × IsWalked b.now }
    ensures { result ≡ length (join_text a.now.text.now b.now.text.now) }
{
    22 + sections_size(a, b)
}

// The joined text of two accepted ones, over the start of `d`.
fn put_joined<'a>(a: &Walked<'a>, b: &Walked<'a>, d: &mut [u8])
    requires walked { IsWalked a.now × IsWalked b.now }
    requires b_in_bounds { length (join_text a.now.text.now b.now.text.now) ≤ length d.old }
    ensures { d.new ≡ over d.old 0 (join_text a.now.text.now b.now.text.now) }
{
    put_head(a.text, b.text, &mut d[0..22]);
    put_sections(a, b, &mut d[22..]);
}

// Joins two accepted texts where there is room.
fn join_accepted<'a>(a: &Walked<'a>, b: &Walked<'a>, out: &mut [u8]) -> Result<usize, Fault>
    requires { IsWalked a.now × IsWalked b.now }
    ensures { (result ≡ told (join a.now.text.now b.now.text.now (length out.old)))
        × (out.new ≡ joined_over (join a.now.text.now b.now.text.now (length out.old)) out.old) }
{
    let n = joined_size(a, b);
    if out.len() < n {
        return Err(Fault::Room);
    }
    put_joined(a, b, out);
    Ok(n)
}

// The first text's refusals, the second's, then room. Each text is gone through once: its check notes where its sections stand.
pub fn join_texts(a: &[u8], b: &[u8], out: &mut [u8]) -> Result<usize, Fault>
    ensures { (result ≡ told (join a.now b.now (length out.old)))
        × (out.new ≡ joined_over (join a.now b.now (length out.old)) out.old) }
{
    let mut first = Walked {
        text: a,
        places: [0; 11],
    };
    walk(a, &mut first.places).map_err(Fault::First)?;
    let mut second = Walked {
        text: b,
        places: [0; 11],
    };
    walk(b, &mut second.places).map_err(Fault::Second)?;
    join_accepted(&first, &second, out)
}
