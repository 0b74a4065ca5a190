// The numbers of a section, by the rows of its layout: out of a text, checked as a record, into a text.
ghost use Rattle.std.specs.Prelude.{◌≡◌, map, ◌+◌, ◌≤◌, length, Ok};
ghost use Rattle.text.specs.Over.{over};
ghost use Rattle.lists.specs.Lists.{all_zero};
ghost use Rattle.section.specs.Layout.{table_of, digits_of, check_items, items_size};
ghost use Rattle.section.specs.Contents.{Amount, contents_at, contents_text};
ghost use Rattle.section.specs.Inner.{Fit, numbers_of, pass_contents, Reaches};

use crate::table::layout_of;
use field::digits::value_at;
use field::write::put_decimal;
use text::Refusal;

// What the digits of an accepted section spell, and zeros behind them. They stand at a place, behind the section's lists.
pub fn numbers_at(s: &[u8], at: usize, k: usize) -> [u16; 8]
    requires { check_items (digits_of (table_of k)) s.now at ≡ Ok (at + items_size (digits_of (table_of k)) s.now at) }
    ensures { (result ≡ numbers_of (contents_at (digits_of (table_of k)) s.now at)) × Fit (table_of k) result }
{
    let l = layout_of(k);
    let mut numbers = [0; 8];
    let mut p = at;
    for (i, row) in l.rows[..l.count].iter().enumerate() {
        let w = row.width as usize;
        numbers[i] = value_at(s, p, w) as u16;
        p += w;
    }
    numbers
}

// Each number within its row's limits, else the row's code where it would stand; else where the text would go on behind them and `/`.
pub fn pass_numbers(v: [u16; 8], k: usize, at: usize) -> Result<usize, Refusal>
    requires { at ≤ 1000 }
    ensures { (result ≡ pass_contents (digits_of (table_of k)) at (map Amount v)) × Reaches (at + 25) result }
{
    let l = layout_of(k);
    let mut p = at;
    for (i, row) in l.rows[..l.count].iter().enumerate() {
        let x = v[i];
        if !((row.least <= x) & (x <= row.most)) {
            return Err(row.code.at(p));
        }
        p += row.width as usize;
    }
    Ok(p + 1)
}

// Whether all are zero, as those of a section that isn't named are.
pub fn are_zero(v: [u16; 8]) -> bool
    ensures { result ≡ all_zero v }
{
    let mut zero = true;
    for x in v {
        zero &= x == 0;
    }
    zero
}

// The numbers and `/` over the start of `d`; the answer is how many bytes that is.
pub fn put_numbers(v: [u16; 8], k: usize, d: &mut [u8]) -> usize
    requires { length (contents_text (digits_of (table_of k)) (map Amount v)) ≤ length d.old }
    ensures { (result ≡ length (contents_text (digits_of (table_of k)) (map Amount v)))
        × (d.new ≡ over d.old 0 (contents_text (digits_of (table_of k)) (map Amount v))) }
{
    let l = layout_of(k);
    let mut p = 0;
    for (i, row) in l.rows[..l.count].iter().enumerate() {
        let end = p + row.width as usize;
        put_decimal(&mut d[p..end], v[i] as usize);
        p = end;
    }
    d[p] = b'/';
    p + 1
}
