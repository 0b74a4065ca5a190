// The first 22 bytes of the joined text.
ghost use Rattle.std.specs.Prelude.{◌≡◌, cond, ◌≤◌, max, eqb, length};
ghost use Rattle.text.specs.Parts.{part};
ghost use Rattle.text.specs.Over.{over};
ghost use Rattle.command.specs.Text.{awr04};
ghost use Rattle.join.specs.Join.{choose};
ghost use Rattle.join.specs.Inner.{join_front, join_back, join_head};

use text::copy;

fn larger(m: u8, n: u8) -> u8
    ensures { result ≡ max m n }
{
    if m < n { n } else { m }
}

// The second's byte, or the first's where the second's is `none`.
fn chosen(none: u8, first: u8, second: u8) -> u8
    ensures { result ≡ cond (eqb second none) first second }
{
    if second == none { first } else { second }
}

fn put_chosen(none: u8, first: &[u8], second: &[u8], d: &mut [u8])
    requires { (length first.now ≡ length d.old) × (length second.now ≡ length d.old) }
    ensures { d.new ≡ choose none first.now second.now }
{
    for i in 0..first.len() {
        d[i] = chosen(none, first[i], second[i]);
    }
}

// `AWR04` and the flags, over the start of `d`. A flag `9` sets none.
fn put_front(a: &[u8], b: &[u8], d: &mut [u8])
    requires in_bounds { (22 ≤ length a.now) × (22 ≤ length b.now) × (12 ≤ length d.old) }
    requires a_value { part 0 5 a.now ≡ awr04 }
    ensures { d.new ≡ over d.old 0 (join_front a.now b.now) }
{
    copy(&mut d[0..5], &a[0..5]);
    put_chosen(b'9', &a[5..12], &b[5..12], &mut d[5..12]);
}

// The downlink digit, the indicators and `/`, over the start of `d`. An indicator `0` names none.
fn put_back(a: &[u8], b: &[u8], d: &mut [u8])
    requires { (22 ≤ length a.now) × (22 ≤ length b.now) × (10 ≤ length d.old) }
    ensures { d.new ≡ over d.old 0 (join_back a.now b.now) }
{
    d[0] = larger(a[12], b[12]);
    put_chosen(b'0', &a[13..21], &b[13..21], &mut d[1..9]);
    d[9] = b'/';
}

// The 22 bytes, over the start of `d`.
pub fn put_head(a: &[u8], b: &[u8], d: &mut [u8])
    requires in_bounds { (22 ≤ length a.now) × (22 ≤ length b.now) × (22 ≤ length d.old) }
    requires a_value { part 0 5 a.now ≡ awr04 }
    ensures { d.new ≡ over d.old 0 (join_head a.now b.now) }
{
    put_front(a, b, &mut d[0..12]);
    put_back(a, b, &mut d[12..22]);
}
