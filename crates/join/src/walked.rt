// A text that was accepted, with the places of its sections.
ghost use Rattle.std.specs.Prelude.{◌≡◌, ◌≤◌};
ghost use Rattle.command.specs.Text.{is_named};
ghost use Rattle.command.specs.Sections.{bytes_of};
ghost use Rattle.join.specs.Inner.{IsWalked};

use command::check;

// The check notes the places: each section stands under its number, and under 10 the text ends.
#[derive(Clone, Copy)]
pub struct Walked<'a> {
    pub text: &'a [u8],
    pub places: [usize; 11],
}

impl<'a> Walked<'a> {
    pub fn is_named(&self, k: usize) -> bool
        requires { IsWalked self.now × (k ≤ 9) }
        ensures { result ≡ is_named self.now.text.now k }
    {
        check::is_named(self.text, k)
    }

    // Section k's bytes, none where the text doesn't name it.
    pub fn section(&self, k: usize) -> &'a [u8]
        requires { IsWalked self.now × (2 ≤ k) × (k ≤ 9) }
        ensures { result.now ≡ bytes_of self.now.text.now k }
    {
        &self.text[self.places[k]..self.places[k + 1]]
    }
}
