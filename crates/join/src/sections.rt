// The sections of the joined text, copied as bytes from the two texts.
ghost use Rattle.std.specs.Prelude.{◌≡◌, ◌≤◌, length};
ghost use Rattle.text.specs.Over.{over};
ghost use Rattle.section.specs.Layout.{numbers};
ghost use Rattle.join.specs.Join.{join_section, join_sections};
ghost use Rattle.join.specs.Inner.{IsWalked};

use crate::walked::Walked;
use text::copy;

// Section k of the joined text: the second's where it names one, else the first's.
fn section<'a>(k: usize, a: &Walked<'a>, b: &Walked<'a>) -> &'a [u8]
    requires { (2 ≤ k) × (k ≤ 9) × IsWalked a.now × IsWalked b.now }
    ensures { result.now ≡ join_section a.now.text.now b.now.text.now k }
{
    if b.is_named(k) {
        b.section(k)
    } else {
        a.section(k)
    }
}

// How long the sections of the joined text are.
pub fn sections_size<'a>(a: &Walked<'a>, b: &Walked<'a>) -> usize
    requires { IsWalked a.now × IsWalked b.now }
    ensures { result ≡ length (join_sections numbers a.now.text.now b.now.text.now) }
{
    let mut total = 0;
    for k in 2..10 {
        total += section(k, a, b).len();
    }
    total
}

// Section k of the joined text over the start of `d`; the answer is how many bytes that is.
fn put_section<'a>(k: usize, a: &Walked<'a>, b: &Walked<'a>, d: &mut [u8]) -> usize
    requires le_k { (2 ≤ k) × (k ≤ 9) × IsWalked a.now × IsWalked b.now }
    requires k_in_bounds { length (join_section a.now.text.now b.now.text.now k) ≤ length d.old }
    ensures { (result ≡ length (join_section a.now.text.now b.now.text.now k))
        × (d.new ≡ over d.old 0 (join_section a.now.text.now b.now.text.now k)) }
{
    let s = section(k, a, b);
    copy(d, s);
    s.len()
}

// The sections of the joined text, in rising order, over the start of `d`.
pub fn put_sections<'a>(a: &Walked<'a>, b: &Walked<'a>, d: &mut [u8])
    requires walked { IsWalked a.now × IsWalked b.now }
    requires b_in_bounds { length (join_sections numbers a.now.text.now b.now.text.now) ≤ length d.old }
    ensures { d.new ≡ over d.old 0 (join_sections numbers a.now.text.now b.now.text.now) }
{
    let mut at = 0;
    for k in 2..10 {
        at += put_section(k, a, b, &mut d[at..]);
    }
}
