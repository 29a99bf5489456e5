//! The taking of one free number: it reads words of free bits, and takes the lowest free number of the first word that has one. A row may have to be
//! wide enough: then the taking reads the words of rows as wide as that, and goes on among those of wider ones.
ghost use Rattle.std.specs.Prelude.{◌≡◌, ◌<◌, ◌≤◌, ◌*◌};
ghost use Rattle.bw_model.specs.Answers.{answer_of};
ghost use Rattle.bw_model.specs.Lent.{step_of_loan};
ghost use Rattle.bw_model.specs.declared.step.Answer.TheVariants.{Number};
ghost use Rattle.traces.specs.discipline.Fitting.{FitsWord};
ghost use Rattle.change_machine.specs.Taking.{FitsTaking, IsSoundFound, IsSoundTaking, TellsWhether};
ghost use Rattle.change_machine.specs.Taking.{begun_at, count_of, first_word, found_after, from_of, near_after, wanted_number, words_end, words_until};

use bw_model::{Limits, Step, Told};
use deltas::Record;

/// How far a count goes on with a take that missed: an odd number, so that takings that met go on far from one another.
const FAR: u32 = 2654435761;

/// A kind of number that a change takes.
#[derive(Clone, Copy, Debug, PartialEq, Eq)]
pub enum Kind {
    /// Page identifiers, one for each new page.
    Pid,
    /// Rows, one for each record.
    Row,
}

/// Where a taking stands: each state is named by the step that it has asked for. It looks at words from word `from` on, and is whole where it
/// began at that word.
#[derive(Clone, Copy)]
pub(crate) enum Taking {
    Bits {
        kind: Kind,
        from: u32,
        word: u32,
        whole: bool,
    },
    Take {
        kind: Kind,
        from: u32,
        number: u32,
        whole: bool,
    },
}

/// How a taking goes on.
#[derive(Clone, Copy)]
pub(crate) enum Found {
    /// Nothing was found yet.
    Not(Taking),
    /// This number was taken.
    Taken { kind: Kind, number: u32 },
    /// No number of this kind is free.
    Full(Kind),
}

impl Kind {
    /// How many numbers of the kind there are.
    pub fn count(self, limits: &Limits) -> u64
        ensures { result ≡ count_of limits.now self }
    {
        match self {
            Kind::Pid => limits.pids,
            Kind::Row => limits.rows,
        }
    }
}

impl Taking {
    /// Where the taking of a number from word `from` on begins, by the actor's count.
    pub(crate) fn begin(limits: &Limits, kind: Kind, from: u32, near: u32) -> Taking
        requires there { 64 * from < count_of limits.now kind }
        ensures { result ≡ begun_at limits.now kind from near }
    {
        let word = first_word(limits, kind, from, near);
        Taking::Bits {
            kind,
            from,
            word,
            whole: word == from,
        }
    }

    /// The step that the taking wants next.
    pub(crate) fn wanted<'a>(self) -> Step<&'a Record>
        ensures { step_of_loan result ≡ wanted_number self }
    {
        match self {
            Taking::Bits { kind, word, .. } => match kind {
                Kind::Pid => Step::PidBits(word),
                Kind::Row => Step::RowBits(word),
            },
            Taking::Take { kind, number, .. } => match kind {
                Kind::Pid => Step::TakePid(number),
                Kind::Row => Step::TakeRow(number),
            },
        }
    }

    /// Is told the answer to the step wanted last.
    pub(crate) fn next(self, limits: &Limits, told: Told) -> Found
        requires told { FitsTaking limits.now self (answer_of told) }
        requires sound { IsSoundTaking limits.now self }
        ensures found { result ≡ found_after limits.now self (answer_of told) }
        ensures sound { IsSoundFound limits.now (from_of self) result }
    {
        match self {
            Taking::Bits {
                kind,
                from,
                word,
                whole,
            } => choose(limits, kind, from, word, whole, told.number()),
            Taking::Take {
                kind,
                from,
                number,
                whole,
            } => {
                if went(told) {
                    return Found::Taken { kind, number };
                }
                Found::Not(Taking::Bits {
                    kind,
                    from,
                    word: number / 64,
                    whole,
                })
            }
        }
    }
}

/// The word at which the taking of a number from word `from` on begins.
fn first_word(limits: &Limits, kind: Kind, from: u32, near: u32) -> u32
    requires there { 64 * from < count_of limits.now kind }
    ensures { result ≡ first_word limits.now kind from near }
{
    if !limits.is_large {
        return from;
    }
    let words = words_until(limits, kind, from) - u64::from(from);
    from + (u64::from(near) % words) as u32
}

/// Where the words end among which the taking of a number from word `from` on begins.
fn words_until(limits: &Limits, kind: Kind, from: u32) -> u64
    requires there { 64 * from < count_of limits.now kind }
    ensures until { result ≡ words_until limits.now kind from }
    ensures some { from < result }
    ensures few { 64 * result ≤ count_of limits.now kind }
{
    let word = u64::from(from);
    if let Kind::Row = kind {
        if word < limits.narrow_rows / 64 {
            return limits.narrow_rows / 64;
        }
        if word < limits.wide_from / 64 {
            return limits.wide_from / 64;
        }
    }
    kind.count(limits) / 64
}

/// Where the words end that a taking reads before it begins anew, or is full.
fn words_end(limits: &Limits, kind: Kind, from: u32, whole: bool) -> u64
    requires there { 64 * from < count_of limits.now kind }
    ensures end { result ≡ words_end limits.now kind from whole }
    ensures few { 64 * result ≤ count_of limits.now kind }
{
    if !whole {
        return words_until(limits, kind, from);
    }
    kind.count(limits) / 64
}

/// The lowest free number of a word of free bits is taken next; where there is none, the next word is read.
fn choose(limits: &Limits, kind: Kind, from: u32, word: u32, whole: bool, bits: u64) -> Found
    requires from { from ≤ word }
    requires word { 64 * word < count_of limits.now kind }
    requires fits { FitsWord (count_of limits.now kind) word bits }
    ensures found { result ≡ found_after limits.now (Taking.Bits kind from word whole) (Number bits) }
    ensures sound { IsSoundFound limits.now from result }
{
    if bits != 0 {
        let number = 64 * word + bits.trailing_zeros();
        return Found::Not(Taking::Take {
            kind,
            from,
            number,
            whole,
        });
    }
    if u64::from(word) + 1 < words_end(limits, kind, from, whole) {
        return Found::Not(Taking::Bits {
            kind,
            from,
            word: word + 1,
            whole,
        });
    }
    if whole {
        return Found::Full(kind);
    }
    Found::Not(Taking::Bits {
        kind,
        from,
        word: from,
        whole: true,
    })
}

/// How an actor's count goes on with what a taking was told: a word that was read as 0 is behind it, and where a take missed another actor takes.
pub(crate) fn near_after(near: u32, taking: Taking, told: Told) -> u32
    ensures { result ≡ near_after near taking (answer_of told) }
{
    match taking {
        Taking::Bits { .. } => match told {
            Told::Number(0) => near.wrapping_add(1),
            _ => near,
        },
        Taking::Take { .. } => match told {
            Told::Whether(false) => near.wrapping_add(FAR),
            _ => near,
        },
    }
}

/// Whether a step went.
pub(crate) fn went(told: Told) -> bool
    requires { TellsWhether told }
    ensures { told ≡ Told.Whether result }
{
    match told {
        Told::Whether(went) => went,
        _ => unreachable!(),
    }
}
