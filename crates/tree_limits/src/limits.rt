//! How large a tree is.
ghost use Rattle.std.specs.Prelude.{◌≡◌, ◌≤◌, ◌%◌, ◌^◌, ◌↔◌, IsOk, IfOk, IsTrue, true, false};
ghost use Rattle.tree_limits.specs.declared.limits.TheConstants.{WORD_BITS};
ghost use Rattle.tree_limits.specs.Limits.{AreLargeLimits, AreLimits, AreWidths, IsOneWidth};

use thiserror::Error;

/// The bits of a word of free PIDs or rows.
pub(crate) const WORD_BITS: u64 = 64;

/// How many actors there are at most.
pub(crate) const MAX_ACTORS: u64 = 16;

/// How many actors a large tree has at most. What actors announce lies in a table of words below the rows, one at every eighth word, and
/// a word of one actor more would be the first row's (`tree_words`).
pub const MAX_LARGE_ACTORS: u64 = 63;

/// How many PIDs there are at most.
pub(crate) const MAX_PIDS: u64 = 4096;

/// How many rows there are at most.
pub(crate) const MAX_ROWS: u64 = 16384;

/// How many PIDs a large tree has at most.
pub(crate) const MAX_LARGE_PIDS: u64 = 4194304;

/// How many rows a large tree has at most.
const MAX_LARGE_ROWS: u64 = 67108864;

/// How many words a wide row has: as many as any record takes.
pub const WIDE_WORDS: u64 = 512;

/// How many words a narrow row has at least: the empty leaf that opens a tree is in one.
const LEAST_NARROW_WORDS: u64 = 8;

/// How many words any other row has at least, so that it has room for each record but a base and a merge.
const LEAST_PAGE_WORDS: u64 = 24;

/// The last epoch that may open a tree.
const MAX_EPOCH: u64 = 1 << 62;

/// A number is outside the range that is stated for it.
#[derive(Clone, Copy, Debug, PartialEq, Eq, Error)]
#[error("a limit is outside its range")]
pub struct BadLimits;

/// Why nothing was opened.
#[derive(Clone, Copy, Debug, PartialEq, Eq, Error)]
pub enum OpenError {
    /// A growth of memory was refused.
    #[error("no memory for the tree")]
    Memory,
    /// The opening epoch is outside its range.
    #[error("the opening epoch is outside its range")]
    BadEpoch,
}

/// The numbers of actors, page identifiers (PIDs) and record rows, and the epoch that opens.
///
/// Actors: 1 to 16. PIDs: 64 to 4,096, a multiple of 64. Rows: 64 to 16,384, a multiple of 64.
/// Epoch: 1 to 2^62.
///
/// Of a large tree: actors to 63, PIDs to 4,194,304, rows to 67,108,864, multiples of 64. Its pages are consolidated at two deltas in
/// place of eight, and an actor that takes a free number begins at a word scattered by the number that its change's exchange expects.
#[derive(Clone, Copy, Debug, PartialEq, Eq)]
pub struct Limits {
    pub actors: u64,
    pub pids: u64,
    pub rows: u64,
    pub epoch: u64,
    /// Whether they are those of a large tree, whatever its numbers are.
    pub is_large: bool,
    /// The rows below this one are narrow.
    pub narrow_rows: u64,
    /// The rows from this one on are wide: they have `WIDE_WORDS` words.
    pub wide_from: u64,
    /// How many words a narrow row has.
    pub narrow_words: u64,
    /// How many words a row has that is neither narrow nor wide.
    pub page_words: u64,
    pub ghost allowed: { AreLargeLimits actors pids rows epoch },
    pub ghost small: { is_large ≡ false → AreLimits actors pids rows epoch },
    pub ghost widths: { AreWidths rows narrow_rows wide_from narrow_words page_words },
    pub ghost alike: { is_large ≡ false → IsOneWidth narrow_rows wide_from },
}

/// How wide the rows of a large tree are, by their numbers.
#[derive(Clone, Copy, Debug, PartialEq, Eq)]
pub struct Widths {
    /// The rows below this one are narrow.
    pub narrow_rows: u64,
    /// The rows from this one on are wide.
    pub wide_from: u64,
    /// How many words a narrow row has.
    pub narrow_words: u64,
    /// How many words a row has that is neither narrow nor wide.
    pub page_words: u64,
}

/// Whether a count is one of whole words, from one word to the most.
fn is_whole(count: u64, most: u64) -> bool
    ensures { IsTrue result ↔ (WORD_BITS ≤ count) × (count ≤ most) × (count % WORD_BITS ≡ 0) }
{
    (WORD_BITS..=most).contains(&count) && count % WORD_BITS == 0
}

impl Widths {
    /// Whether a large tree of so many rows may have them.
    fn are_of(self, rows: u64) -> bool
        ensures { IsTrue result ↔ AreWidths rows self.narrow_rows self.wide_from self.narrow_words self.page_words }
    {
        self.narrow_rows % WORD_BITS == 0
            && self.wide_from % WORD_BITS == 0
            && self.narrow_rows <= self.wide_from
            && self.wide_from < rows
            && LEAST_NARROW_WORDS <= self.narrow_words
            && LEAST_PAGE_WORDS <= self.page_words
            && self.narrow_words <= self.page_words
            && self.page_words <= WIDE_WORDS
    }
}

impl Limits {
    /// These limits, refused exactly where a number is outside its range.
    pub fn new(actors: u64, pids: u64, rows: u64, epoch: u64) -> Result<Limits, BadLimits>
        ensures allowed { IsOk result ↔ AreLimits actors pids rows epoch }
        ensures actors { IfOk result (λ limits. limits.actors ≡ actors) }
        ensures pids { IfOk result (λ limits. limits.pids ≡ pids) }
        ensures rows { IfOk result (λ limits. limits.rows ≡ rows) }
        ensures epoch { IfOk result (λ limits. limits.epoch ≡ epoch) }
        ensures kind { IfOk result (λ limits. limits.is_large ≡ false) }
        ensures widths { IfOk result (λ limits. IsOneWidth limits.narrow_rows limits.wide_from) }
    {
        let allowed = (1..=MAX_ACTORS).contains(&actors)
            && is_whole(pids, MAX_PIDS)
            && is_whole(rows, MAX_ROWS)
            && (1..=MAX_EPOCH).contains(&epoch);
        if allowed {
            Ok(Limits {
                actors,
                pids,
                rows,
                epoch,
                is_large: false,
                narrow_rows: 0,
                wide_from: 0,
                narrow_words: WIDE_WORDS,
                page_words: WIDE_WORDS,
            })
        } else {
            Err(BadLimits)
        }
    }

    /// These limits of a large tree: up to 63 actors, 4,194,304 PIDs and 67,108,864 rows, which are all wide. Refused exactly where a number is
    /// outside its range.
    pub fn large(actors: u64, pids: u64, rows: u64, epoch: u64) -> Result<Limits, BadLimits>
        ensures allowed { IsOk result ↔ AreLargeLimits actors pids rows epoch }
        ensures actors { IfOk result (λ limits. limits.actors ≡ actors) }
        ensures pids { IfOk result (λ limits. limits.pids ≡ pids) }
        ensures rows { IfOk result (λ limits. limits.rows ≡ rows) }
        ensures epoch { IfOk result (λ limits. limits.epoch ≡ epoch) }
        ensures kind { IfOk result (λ limits. limits.is_large ≡ true) }
        ensures widths { IfOk result (λ limits. IsOneWidth limits.narrow_rows limits.wide_from) }
    {
        let allowed = (1..=MAX_LARGE_ACTORS).contains(&actors)
            && is_whole(pids, MAX_LARGE_PIDS)
            && is_whole(rows, MAX_LARGE_ROWS)
            && (1..=MAX_EPOCH).contains(&epoch);
        if allowed {
            Ok(Limits {
                actors,
                pids,
                rows,
                epoch,
                is_large: true,
                narrow_rows: 0,
                wide_from: 0,
                narrow_words: WIDE_WORDS,
                page_words: WIDE_WORDS,
            })
        } else {
            Err(BadLimits)
        }
    }

    /// These limits of a large tree, whose rows are as wide as it says. Refused exactly where a number is outside its range, or a width.
    pub fn with_widths(
        actors: u64,
        pids: u64,
        rows: u64,
        epoch: u64,
        widths: Widths,
    ) -> Result<Limits, BadLimits>
        ensures allowed { IsOk result ↔ AreLargeLimits actors pids rows epoch
            × AreWidths rows widths.narrow_rows widths.wide_from widths.narrow_words widths.page_words }
        ensures actors { IfOk result (λ limits. limits.actors ≡ actors) }
        ensures pids { IfOk result (λ limits. limits.pids ≡ pids) }
        ensures rows { IfOk result (λ limits. limits.rows ≡ rows) }
        ensures epoch { IfOk result (λ limits. limits.epoch ≡ epoch) }
        ensures kind { IfOk result (λ limits. limits.is_large ≡ true) }
        ensures narrow_rows { IfOk result (λ limits. limits.narrow_rows ≡ widths.narrow_rows) }
        ensures wide_from { IfOk result (λ limits. limits.wide_from ≡ widths.wide_from) }
        ensures narrow_words { IfOk result (λ limits. limits.narrow_words ≡ widths.narrow_words) }
        ensures page_words { IfOk result (λ limits. limits.page_words ≡ widths.page_words) }
    {
        if !widths.are_of(rows) {
            return Err(BadLimits);
        }
        let limits = Limits::large(actors, pids, rows, epoch)?;
        Ok(Limits {
            actors: limits.actors,
            pids: limits.pids,
            rows: limits.rows,
            epoch: limits.epoch,
            is_large: true,
            narrow_rows: widths.narrow_rows,
            wide_from: widths.wide_from,
            narrow_words: widths.narrow_words,
            page_words: widths.page_words,
        })
    }

    /// These limits with another opening epoch, refused exactly where that is outside its range.
    pub fn opening_at(self, epoch: u64) -> Result<Limits, BadLimits>
        ensures allowed { IsOk result ↔ (1 ≤ epoch) × (epoch ≤ 2 ^ 62) }
        ensures actors { IfOk result (λ limits. limits.actors ≡ self.actors) }
        ensures pids { IfOk result (λ limits. limits.pids ≡ self.pids) }
        ensures rows { IfOk result (λ limits. limits.rows ≡ self.rows) }
        ensures epoch { IfOk result (λ limits. limits.epoch ≡ epoch) }
        ensures kind { IfOk result (λ limits. limits.is_large ≡ self.is_large) }
        ensures narrow_rows { IfOk result (λ limits. limits.narrow_rows ≡ self.narrow_rows) }
        ensures wide_from { IfOk result (λ limits. limits.wide_from ≡ self.wide_from) }
        ensures narrow_words { IfOk result (λ limits. limits.narrow_words ≡ self.narrow_words) }
        ensures page_words { IfOk result (λ limits. limits.page_words ≡ self.page_words) }
    {
        if (1..=MAX_EPOCH).contains(&epoch) {
            Ok(Limits {
                actors: self.actors,
                pids: self.pids,
                rows: self.rows,
                epoch,
                is_large: self.is_large,
                narrow_rows: self.narrow_rows,
                wide_from: self.wide_from,
                narrow_words: self.narrow_words,
                page_words: self.page_words,
            })
        } else {
            Err(BadLimits)
        }
    }
}
