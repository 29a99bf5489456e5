//! Why the program refuses, and the numbers that it prints for that.

ghost use Rattle.std.specs.Prelude.{◌≡◌};
ghost use Rattle.bw_shell.specs.Refusal.{code_of, refusal_by};

use bw_model::MAX_LENGTH;
use step_core::RunError;
use thiserror::Error;

/// Why a line, a command line or a whole run is refused.
#[derive(Clone, Copy, Debug, PartialEq, Eq, Error)]
pub enum Refusal {
    #[error("a key or a value has more than {MAX_LENGTH} bytes")]
    TooLong,
    #[error("a limit is outside its range")]
    BadLimits,
    #[error("there is no such actor")]
    NoActor,
    #[error("the actor's operation is not done")]
    Unfinished,
    #[error("the actor has no operation")]
    NoOperation,
    #[error("a growth of memory was refused")]
    Memory,
    #[error("no memory for the list of the pairs")]
    NotClosed,
    #[error("the line is outside the grammar")]
    Malformed,
    #[error("no memory for the map")]
    NotOpened,
    #[error("no memory or no thread to run the jobs")]
    NotRun,
    #[error("the results are not those of the jobs")]
    WrongResults,
}

/// A refused line: its number, from 1, skipped lines counted, and why it is refused.
#[derive(Clone, Copy, Debug, PartialEq, Eq, Error)]
#[error("line {number} is refused: {refusal}")]
pub struct RefusedLine {
    pub number: u64,
    pub refusal: Refusal,
}

impl Refusal {
    /// The number that is printed for it.
    pub fn code(self) -> u64
        ensures { result ≡ code_of self }
    {
        match self {
            Refusal::TooLong => 1,
            Refusal::BadLimits => 2,
            Refusal::NoActor => 4,
            Refusal::Unfinished => 5,
            Refusal::NoOperation => 6,
            Refusal::Memory => 7,
            Refusal::NotClosed => 10,
            Refusal::Malformed => 11,
            Refusal::NotOpened => 12,
            Refusal::NotRun => 14,
            Refusal::WrongResults => 15,
        }
    }

    /// Why a line is refused whose turn the core refuses.
    pub fn of_turn(error: RunError) -> Refusal
        ensures { result ≡ refusal_by error }
    {
        match error {
            RunError::NoActor(_) => Refusal::NoActor,
            RunError::Unfinished(_) => Refusal::Unfinished,
            RunError::NoOperation(_) => Refusal::NoOperation,
            RunError::Memory(_) => Refusal::Memory,
        }
    }
}
