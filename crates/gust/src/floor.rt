// Division rounded down.
ghost use Rattle.std.specs.Prelude.{◌≡◌, pos, true};
ghost use Rattle.std.specs.Int.Signed.{lt_z};
ghost use Rattle.gust.specs.Floor.{◌over◌};

// The machine's division goes toward zero. Below zero, -1 - x is not, and goes down as it is turned back.
pub fn floor(x: i64, d: i64) -> i64
    requires { lt_z (pos 0) d ≡ true }
    ensures { result ≡ x over d }
{
    if x < 0 { -1 - (-1 - x) / d } else { x / d }
}
