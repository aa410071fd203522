//! Why a call is refused, as far as it is printed: a number and a place.
ghost use Rattle.std.specs.Prelude.{◌≡◌, ℕ};
ghost use Rattle.answer.specs.Refusal.{number_of, place_of};

use answer::Refusal;

/// What has the number and the place of a refusal.
pub trait Refused: Copy {
    ghost number: { Self → ℕ };

    ghost place: { Self → ℕ };

    /// The refusal's number.
    fn number(self) -> u8
        ensures { result ≡ number self };

    /// The refusal's place.
    fn place(self) -> usize
        ensures { result ≡ place self };

    /// A refusal as one of these, with its number and its place.
    fn from_refusal(refusal: Refusal) -> Self
        ensures number { number result ≡ number_of refusal }
        ensures place { place result ≡ place_of refusal };
}

impl Refused for Refusal {
    ghost number = { number_of };

    ghost place = { place_of };

    fn number(self) -> u8 {
        Refusal::number(self)
    }

    fn place(self) -> usize {
        Refusal::place(self)
    }

    fn from_refusal(refusal: Refusal) -> Refusal {
        refusal
    }
}

/// A number and a place as they are, of a refusal or not.
impl Refused for (u8, usize) {
    ghost number = { λ r. r.0 };

    ghost place = { λ r. r.1 };

    fn number(self) -> u8 {
        self.0
    }

    fn place(self) -> usize {
        self.1
    }

    fn from_refusal(refusal: Refusal) -> (u8, usize) {
        (refusal.number(), refusal.place())
    }
}
