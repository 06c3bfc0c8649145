// What entries answer: a value, or a refusal of document 01 ("Refusal numbers").
//
// For the crates above: `Refusal`, which an entry's own refusals implement, `Answer`, by which an answer is told as a number, and `Answered`, an
// answer with the state beside it. Which refusal is given, `specs/Refusal.antt` says by `first`; `proofs/FirstLaws.antt` has what every entry may
// cite of it.
#![tactic(auto)]

ghost use Rattle.std.specs.Prelude.{◌≡◌, ℕ};
ghost use Rattle.refusal.specs.Answer.{number_in};

// A refusal, by which an entry says why it does nothing.
pub trait Refusal {
    // 01's number for each.
    ghost number_of: { Self → ℕ };

    fn number(self) -> u8
        ensures { result ≡ number_of self };
}

// An answer as a number: 0, or that of the refusal.
pub trait Answer {
    ghost told_number: { Self → ℕ };

    fn number(self) -> u8
        ensures { result ≡ told_number self };
}

impl<T: Drop, E: Refusal> Answer for Result<T, E> {
    ghost told_number = { number_in E.number_of };

    fn number(self) -> u8 {
        match self {
            Ok(_) => 0,
            Err(refusal) => refusal.number(),
        }
    }
}

// An answer, and the state that comes back beside it: the next one, or with a refusal what 01 says there.
#[derive(Clone, Copy)]
pub struct Answered<T, E, S> {
    pub answer: Result<T, E>,
    pub state: S,
}

impl<T, E, S> Answered<T, E, S> {
    pub fn accepted(value: T, next: S) -> Answered<T, E, S>
        ensures { result ≡ record { answer = Ok value; state = next } }
    {
        Answered {
            answer: Ok(value),
            state: next,
        }
    }

    pub fn refused(refusal: E, state: S) -> Answered<T, E, S>
        ensures { result ≡ record { answer = Err refusal; state = state } }
    {
        Answered {
            answer: Err(refusal),
            state,
        }
    }
}
