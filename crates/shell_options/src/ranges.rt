//! Which option is outside its range.

ghost use Rattle.std.specs.Prelude.{◌≡◌, ◌↔◌, IfSome, MatchBool, None};
ghost use Rattle.shell_options.specs.Settings.{MayOpen};
ghost use Rattle.shell_options.specs.Ranges.{IsOutside, alone, least, size_alone};

use crate::settings::{Program, Settings, TreeSize};
use std::fmt;
use std::fmt::{Display, Formatter};
use tree_limits::Limits;

/// An option that is one of a tree's limits, or by which they are proposed.
#[derive(Clone, Copy, Debug, PartialEq, Eq)]
pub enum LimitOption {
    /// How many actors there are; of a race, how many seats.
    Actors,
    /// How many page identifiers.
    Pids,
    /// How many rows.
    Rows,
    /// How many different keys.
    Keys,
    /// How many bytes a key has at most.
    KeyBytes,
    /// How many bytes a value has at most.
    ValueBytes,
    /// The opening epoch.
    Epoch,
}

/// An option of these settings whose number is outside its range.
#[derive(Clone, Copy, Debug, PartialEq, Eq)]
pub struct OutOfRange {
    pub option: LimitOption,
    pub settings: Settings,
}

impl TreeSize {
    /// Whether a tree of this size is large.
    fn is_large(self) -> bool {
        matches!(self, TreeSize::Large { .. } | TreeSize::ForPairs { .. })
    }

    /// The option's number, if it is one of this size.
    fn number_of(self, option: LimitOption) -> Option<u64> {
        match (option, self) {
            (LimitOption::Pids, TreeSize::Small { pids, .. } | TreeSize::Large { pids, .. }) =>
                Some(pids),
            (LimitOption::Rows, TreeSize::Small { rows, .. } | TreeSize::Large { rows, .. }) =>
                Some(rows),
            (LimitOption::Keys, TreeSize::ForKeys { keys } | TreeSize::ForPairs { keys, .. }) =>
                Some(keys),
            (LimitOption::KeyBytes, TreeSize::ForPairs { key_bytes, .. }) => Some(key_bytes),
            (LimitOption::ValueBytes, TreeSize::ForPairs { value_bytes, .. }) => Some(value_bytes),
            _ => None,
        }
    }

    /// The least size of such a tree.
    fn least(self) -> TreeSize
        ensures { result ≡ least self }
    {
        match self {
            TreeSize::Small { .. } | TreeSize::ForKeys { .. } => TreeSize::Small {
                pids: 64,
                rows: 64,
            },
            TreeSize::Large { .. } | TreeSize::ForPairs { .. } => TreeSize::Large {
                pids: 64,
                rows: 64,
            },
        }
    }

    /// This size with the least number in place of each but the option's.
    fn alone(self, option: LimitOption) -> TreeSize
        ensures { result ≡ size_alone option self }
    {
        match (option, self) {
            (LimitOption::Pids, TreeSize::Small { pids, .. }) => TreeSize::Small { pids, rows: 64 },
            (LimitOption::Pids, TreeSize::Large { pids, .. }) => TreeSize::Large { pids, rows: 64 },
            (LimitOption::Rows, TreeSize::Small { rows, .. }) => TreeSize::Small { pids: 64, rows },
            (LimitOption::Rows, TreeSize::Large { rows, .. }) => TreeSize::Large { pids: 64, rows },
            (LimitOption::Keys, TreeSize::ForKeys { keys }) => TreeSize::ForKeys { keys },
            (LimitOption::Keys, TreeSize::ForPairs { keys, .. }) => for_pairs(keys, 0, 0),
            (LimitOption::KeyBytes, TreeSize::ForPairs { key_bytes, .. }) => for_pairs(
                0, key_bytes, 0,
            ),
            (LimitOption::ValueBytes, TreeSize::ForPairs { value_bytes, .. }) => for_pairs(
                0,
                0,
                value_bytes,
            ),
            _ => self.least(),
        }
    }
}

/// The size for so many keys, and lengths of keys and values.
fn for_pairs(keys: u64, key_bytes: u64, value_bytes: u64) -> TreeSize
    ensures { result ≡ TreeSize.ForPairs keys key_bytes value_bytes }
{
    TreeSize::ForPairs {
        keys,
        key_bytes,
        value_bytes,
    }
}

impl Settings {
    /// The option's number; 0 if these settings have none.
    fn number_of(&self, option: LimitOption) -> u64 {
        match option {
            LimitOption::Actors => self.actors,
            LimitOption::Epoch => self.epoch,
            _ => self.size.number_of(option).unwrap_or(0),
        }
    }

    /// The settings with the least number in place of each but the option's, and but for the actors of a number of keys.
    fn alone(&self, option: LimitOption) -> Settings
        ensures { result ≡ alone option self.now }
    {
        let (actors, epoch) = match option {
            LimitOption::Actors | LimitOption::Keys => (self.actors, 1),
            LimitOption::Epoch => (1, self.epoch),
            _ => (1, 1),
        };
        Settings {
            program: self.program,
            actors,
            size: self.size.alone(option),
            epoch,
        }
    }

    /// Whether the option's number is outside its range, whatever the other numbers are; of a number of keys, for these actors.
    fn is_outside(&self, option: LimitOption) -> bool
        ensures { MatchBool result (IsOutside option self.now) (MayOpen (alone option self.now)) }
    {
        self.alone(option).limits().is_err()
    }

    /// The first option whose number is outside its range. None exactly where a tree may be opened with these numbers.
    pub fn out_of_range(&self) -> Option<OutOfRange>
        ensures none { result ≡ None ↔ MayOpen self.now }
        ensures some { IfSome result (λ found. IsOutside found.option self.now) }
        ensures settings { IfSome result (λ found. found.settings ≡ self.now) }
    {
        let option = if self.is_outside(LimitOption::Actors) {
            LimitOption::Actors
        } else if self.is_outside(LimitOption::Pids) {
            LimitOption::Pids
        } else if self.is_outside(LimitOption::Rows) {
            LimitOption::Rows
        } else if self.is_outside(LimitOption::Keys) {
            LimitOption::Keys
        } else if self.is_outside(LimitOption::KeyBytes) {
            LimitOption::KeyBytes
        } else if self.is_outside(LimitOption::ValueBytes) {
            LimitOption::ValueBytes
        } else if self.is_outside(LimitOption::Epoch) {
            LimitOption::Epoch
        } else {
            return None;
        };
        Some(OutOfRange {
            option,
            settings: *self,
        })
    }
}

/// The option's word in a program's command line.
fn word_of(option: LimitOption, program: Program) -> &'static str {
    match option {
        LimitOption::Actors if program == Program::Race => "--seats",
        LimitOption::Actors => "--actors",
        LimitOption::Pids => "--pids",
        LimitOption::Rows => "--rows",
        LimitOption::Keys => "--keys",
        LimitOption::KeyBytes => "--key-bytes",
        LimitOption::ValueBytes => "--value-bytes",
        LimitOption::Epoch => "--epoch",
    }
}

/// The option's range; of a number of keys, that of a large tree.
fn range_of(option: LimitOption, is_large: bool) -> &'static str {
    match option {
        LimitOption::Actors if is_large => "1 to 63",
        LimitOption::Actors => "1 to 16, or with --large to 63",
        LimitOption::Pids if is_large => "a multiple of 64 from 64 to 4194304",
        LimitOption::Pids => "a multiple of 64 from 64 to 4096, or with --large to 4194304",
        LimitOption::Rows if is_large => "a multiple of 64 from 64 to 67108864",
        LimitOption::Rows => "a multiple of 64 from 64 to 16384, or with --large to 67108864",
        LimitOption::Keys => "0 to some 27 million",
        LimitOption::KeyBytes | LimitOption::ValueBytes => "0 to 64",
        LimitOption::Epoch => "1 to 4611686018427387904",
    }
}

impl OutOfRange {
    /// How many keys there may be at most, where the number of keys of a small tree is outside its range.
    fn most_keys(&self) -> Option<u64> {
        if self.option == LimitOption::Keys && !self.settings.size.is_large() {
            Limits::most_keys(self.settings.actors)
        } else {
            None
        }
    }
}

impl Display for OutOfRange {
    fn fmt<W: fmt::Write>(&self, f: &mut Formatter<W>) -> fmt::Result {
        let number = self.settings.number_of(self.option);
        let word = word_of(self.option, self.settings.program);
        write!(f, "{number} is outside the range of {word}: ")?;
        if let Some(most) = self.most_keys() {
            return write!(f, "0 to {most}, or with --large to some 27 million");
        }
        let range = range_of(self.option, self.settings.size.is_large());
        write!(f, "{range}")
    }
}
