// The inhibit window.
ghost use Rattle.std.specs.Prelude.{◌≡◌};
ghost use Rattle.decide.specs.Tests.{is_in_window};

// From the start hour up to, not including, the end hour; a start above the end means over midnight.
pub fn in_window(start: u8, end: u8, hour: u8) -> bool
    ensures { result ≡ is_in_window start end hour }
{
    if start <= end {
        (start <= hour) & (hour < end)
    } else {
        (start <= hour) | (hour < end)
    }
}
