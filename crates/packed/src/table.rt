// One table gives every byte its worth as a base-40 digit, and one every digit its byte. A constant table is built anew wherever it
// is named, so each is named once, in `new`, and lent down from there.
ghost use Rattle.std.specs.Prelude.{◌≡◌, ◌<◌};
ghost use Rattle.packed.specs.Packed.{worth_of, worths, digit_of, digits};

const WORTH: [u8; 256] = [
    40, 40, 40, 40, 40, 40, 40, 40, 40, 40, 40, 40, 40, 40, 40, 40, 40, 40, 40, 40, 40, 40, 40, 40,
    40, 40, 40, 40, 40, 40, 40, 40, 40, 40, 40, 40, 40, 40, 40, 40, 40, 40, 40, 40, 37, 38, 39, 40,
    0, 1, 2, 3, 4, 5, 6, 7, 8, 9, 36, 40, 40, 40, 40, 40, 40, 10, 11, 12, 13, 14, 15, 16, 17, 18,
    19, 20, 21, 22, 23, 24, 25, 26, 27, 28, 29, 30, 31, 32, 33, 34, 35, 40, 40, 40, 40, 40, 40, 40,
    40, 40, 40, 40, 40, 40, 40, 40, 40, 40, 40, 40, 40, 40, 40, 40, 40, 40, 40, 40, 40, 40, 40, 40,
    40, 40, 40, 40, 40, 40, 40, 40, 40, 40, 40, 40, 40, 40, 40, 40, 40, 40, 40, 40, 40, 40, 40, 40,
    40, 40, 40, 40, 40, 40, 40, 40, 40, 40, 40, 40, 40, 40, 40, 40, 40, 40, 40, 40, 40, 40, 40, 40,
    40, 40, 40, 40, 40, 40, 40, 40, 40, 40, 40, 40, 40, 40, 40, 40, 40, 40, 40, 40, 40, 40, 40, 40,
    40, 40, 40, 40, 40, 40, 40, 40, 40, 40, 40, 40, 40, 40, 40, 40, 40, 40, 40, 40, 40, 40, 40, 40,
    40, 40, 40, 40, 40, 40, 40, 40, 40, 40, 40, 40, 40, 40, 40, 40, 40, 40, 40, 40, 40, 40, 40, 40,
    40, 40, 40, 40, 40, 40, 40, 40, 40, 40, 40, 40, 40, 40,
];

const DIGIT: [u8; 40] = [
    48, 49, 50, 51, 52, 53, 54, 55, 56, 57, 65, 66, 67, 68, 69, 70, 71, 72, 73, 74, 75, 76, 77, 78,
    79, 80, 81, 82, 83, 84, 85, 86, 87, 88, 89, 90, 58, 44, 45, 46,
];

// What every byte is worth.
#[derive(Clone, Copy, Debug, PartialEq, Eq)]
pub struct Worths {
    pub table: [u8; 256],
    pub ghost exact: { table ≡ worths },
}

impl Worths {
    #[tactic(auto, unfolding(crate::specs::Packed::worths, crate::specs::Packed::worth_of))]
    pub fn new() -> Worths
        ensures { result.table ≡ worths }
    {
        Worths { table: WORTH }
    }

    // An array of one's own that is the table.
    pub fn of(table: [u8; 256]) -> Worths
        requires { table ≡ worths }
        ensures { result.table ≡ worths }
    {
        Worths { table }
    }

    // What a byte is worth as a digit: 0 to 39, or 40 where it is none.
    pub fn worth(&self, b: u8) -> u8
        ensures { result ≡ worth_of b }
    {
        self.table[index(b)]
    }
}

fn index(b: u8) -> usize
    ensures { result ≡ b }
{
    b as usize
}

// What every digit is written as.
#[derive(Clone, Copy, Debug, PartialEq, Eq)]
pub struct Digits {
    pub table: [u8; 40],
    pub ghost exact: { table ≡ digits },
}

impl Digits {
    #[tactic(auto, unfolding(crate::specs::Packed::digits, crate::specs::Packed::digit_of))]
    pub fn new() -> Digits
        ensures { result.table ≡ digits }
    {
        Digits { table: DIGIT }
    }

    // An array of one's own that is the table.
    pub fn of(table: [u8; 40]) -> Digits
        requires { table ≡ digits }
        ensures { result.table ≡ digits }
    {
        Digits { table }
    }

    // The byte that is worth n.
    pub fn digit(&self, n: usize) -> u8
        requires { n < 40 }
        ensures { result ≡ digit_of n }
    {
        self.table[n]
    }
}
