// The three steps between signed and unsigned numbers; all other arithmetic is unsigned.
ghost use Rattle.std.specs.Prelude.{◌≡◌, ◌<◌, ◌≤◌, ◌^◌};
ghost use Rattle.std.proofs.Math.IntN.{sub_ℕ};
ghost use Rattle.std.specs.Int.Signed.{mag};
ghost use Rattle.packed.specs.Packed.{above};

// n less h.
pub fn less(n: u32, h: u32) -> i32
    requires n_bound { n < 2 ^ 31 }
    requires h_bound { h < 2 ^ 31 }
    ensures { result ≡ sub_ℕ n h }
{
    n as i32 - h as i32
}

// x, or -x - 1 below zero.
pub fn size(x: i32) -> u32
    ensures { result ≡ mag x }
{
    if x < 0 { (-1 - x) as u32 } else { x as u32 }
}

// x and h together.
pub fn plus(x: i32, h: u32) -> u32
    requires x_bound { mag x < h }
    requires h_bound { h < 2 ^ 30 }
    ensures { result ≡ above x h }
{
    (x + h as i32) as u32
}
