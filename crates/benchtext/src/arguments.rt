//! What the arguments of `bench` say.
ghost use Rattle.std.specs.Prelude.{◌≡◌, ◌<◌, ◌^◌, ◌||◌, eqb};
ghost use Rattle.benchtext.specs.Arguments.{decimal_in, number_at, no_argument, with_limit, with_number, placed_at, is_option, argued, with_argument, is_whole, whole};

use numeral::digit::digit_value;
use numeral::unsigned::read_digits;
use station::arguments::hexadecimal;
use text::starts_with;

/// What the arguments so far say.
#[derive(Clone, Copy, Debug, PartialEq, Eq, Hash)]
pub struct Given {
    /// The place of the next one: 0 before the first.
    // 0 and no `Option`: the specs (`argued`) compare it with 0.
    pub place: usize,
    /// A threshold is tried.
    // A flag, and no `Option` over the numbers 1 to 3: they come one by one, each at its place, after it is set.
    pub tries: bool,
    /// The numbers at their places: 1 ADDRESS, 2 FROM, 3 TO, 4 START, 6 to 13 A0 to A7.
    pub numbers: [u32; 14],
    /// LIMIT, whose place is 5.
    pub limit: u64,
}

// ---- Numbers.

// A decimal number of 64 bits: `read_digits` reads 32.
fn read_limit(t: &[u8]) -> Option<u64>
    ensures { result ≡ decimal_in (2 ^ 64) t.now }
{
    if t.is_empty() {
        return None;
    }
    let mut v: u64 = 0;
    for &b in t {
        let d = u64::from(digit_value(b));
        if d >= 10 {
            return None;
        }
        v = v.checked_mul(10)?.checked_add(d)?;
    }
    Some(v)
}

// Whether a place is FROM's or TO's.
fn is_decimal(place: usize) -> bool
    ensures { result ≡ (eqb place 2 || eqb place 3) }
{
    place == 2 || place == 3
}

// The number at a place that is not LIMIT's.
fn number_at(place: usize, t: &[u8]) -> Option<u32>
    ensures { result ≡ number_at place t.now }
{
    if is_decimal(place) {
        read_digits(t, 10, 65536).ok()
    } else {
        hexadecimal(t).ok()
    }
}

// Whether an argument is `-w`: by its length and its front, as the specs (`is_option`) say it.
#[tactic(auto, unfolding(crate::specs::Arguments::is_option, rules::specs::Text::bytes))]
fn is_option(t: &[u8]) -> bool
    ensures { result ≡ is_option t.now }
{
    t.len() == 2 && starts_with(t, b"-w")
}

// ---- One argument after another.

impl Given {
    /// Before the first argument.
    // By hand: field by field, as the specs' `no_argument` has it.
    pub fn new() -> Self
        ensures { result ≡ no_argument }
    {
        Given {
            place: 0,
            tries: false,
            numbers: [0; 14],
            limit: 0,
        }
    }

    // After LIMIT.
    fn with_limit(self, t: &[u8]) -> Option<Given>
        ensures { result ≡ with_limit self (decimal_in (2 ^ 64) t.now) }
    {
        let limit = read_limit(t)?;
        Some(Given {
            place: 6,
            limit,
            ..self
        })
    }

    // After a number at another place.
    fn with_number(self, place: usize, t: &[u8]) -> Option<Given>
        requires { place < 14 }
        ensures { result ≡ with_number self place (number_at place t.now) }
    {
        let number = number_at(place, t)?;
        let mut numbers = self.numbers;
        numbers[place] = number;
        Some(Given {
            place: place + 1,
            numbers,
            ..self
        })
    }

    // After the argument at a place.
    #[tactic(auto, unfolding(crate::specs::Arguments::placed_at))]
    fn placed_at(self, place: usize, t: &[u8]) -> Option<Given>
        ensures { result ≡ placed_at self place t.now }
    {
        if place == 5 {
            self.with_limit(t)
        } else if place < 14 {
            self.with_number(place, t)
        } else {
            None
        }
    }

    // After one more argument.
    #[tactic(auto, unfolding(crate::specs::Arguments::argued))]
    fn argued(self, t: &[u8]) -> Option<Given>
        ensures { result ≡ argued self t.now }
    {
        if self.place != 0 {
            return self.placed_at(self.place, t);
        }
        if is_option(t) {
            return Some(Given {
                place: 1,
                tries: true,
                ..self
            });
        }
        self.placed_at(4, t)
    }

    // Whether START and LIMIT are there, and FROM is not above TO.
    #[tactic(auto, unfolding(crate::specs::Arguments::is_whole))]
    fn is_whole(&self) -> bool
        ensures { result ≡ is_whole self.now }
    {
        6 <= self.place && self.numbers[2] <= self.numbers[3]
    }
}

/// What the arguments say with one more; None where one of them is not what its place asks for.
pub fn with_argument(given: Option<Given>, t: &[u8]) -> Option<Given>
    ensures { result ≡ with_argument given t.now }
{
    given?.argued(t)
}

/// What the arguments say, if they are what `bench` takes.
#[tactic(auto, unfolding(crate::specs::Arguments::whole))]
pub fn whole(given: Option<Given>) -> Option<Given>
    ensures { result ≡ whole given }
{
    let given = given?;
    given.is_whole().then_some(given)
}
