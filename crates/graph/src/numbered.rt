//! The numbers that stand for values in files and answers.

ghost use Rattle.std.specs.Prelude.{◌≡◌, ℕ};
ghost use Rattle.graph.specs.Refusals.{granted_number, answer_number};

/// A value for which a number stands in files and answers.
pub trait Numbered: Sized {
    ghost number_of: { Self → ℕ };

    /// The number that stands for the value.
    fn number(self) -> u8
        ensures { result ≡ number_of self };
}

/// Nothing to tell beside that it was granted: 0.
impl Numbered for () {
    ghost number_of = { granted_number };

    fn number(self) -> u8 {
        0
    }
}

/// An answer has the number of what was granted, or that of the refusal.
impl<T: Numbered, E: Numbered> Numbered for Result<T, E> {
    ghost number_of = { answer_number T.number_of E.number_of };

    fn number(self) -> u8 {
        match self {
            Ok(granted) => granted.number(),
            Err(refused) => refused.number(),
        }
    }
}
