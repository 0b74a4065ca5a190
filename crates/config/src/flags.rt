// The configuration's seven flags.
ghost use Rattle.std.specs.Prelude.{◌≡◌};
ghost use Rattle.config.specs.Config.{new_flag, new_flags};

// A command's flag that is 9 changes nothing.
fn new_flag(old: u8, v: u8) -> u8
    ensures { result ≡ new_flag old v }
{
    if v == 9 { old } else { v }
}

#[tactic(auto, using(crate::proofs::Seven::new_seven))]
pub fn new_flags(old: [u8; 7], vs: [u8; 7]) -> [u8; 7]
    ensures { result ≡ new_flags old vs }
{
    [
        new_flag(old[0], vs[0]),
        new_flag(old[1], vs[1]),
        new_flag(old[2], vs[2]),
        new_flag(old[3], vs[3]),
        new_flag(old[4], vs[4]),
        new_flag(old[5], vs[5]),
        new_flag(old[6], vs[6]),
    ]
}
