//! Limits by the number of keys. specs/Room.antt has the rule in one place, and docs/DECISIONS.md the reasons.
ghost use Rattle.std.specs.Prelude.{◌≡◌, ◌≤◌, ◌+◌, ◌^◌, ◌↔◌, ℕ, IsOk, IfOk, MatchOption, true, false};
ghost use Rattle.tree_limits.specs.declared.limits.TheConstants.{MAX_ACTORS, MAX_LARGE_ACTORS, MAX_LARGE_PIDS, MAX_PIDS, WIDE_WORDS, WORD_BITS};
ghost use Rattle.tree_limits.specs.declared.room.TheConstants.{LEAST_SPARE, MAX_BYTES};
ghost use Rattle.tree_limits.specs.Room.{AreProposed, AreProposedLarge, AreProposedPairs, IsMostKeys, in_whole_lines, in_whole_words, large_pids_for, large_rows_for, pages_for, pids_for, rows_for};
ghost use Rattle.tree_limits.specs.Room.{narrow_rows_for, narrow_words_for, page_rows_for, page_words_for, spare_pages_for, tail_words_for, text_words_for, wide_rows_for};

use crate::limits::{
    BadLimits, Limits, MAX_ACTORS, MAX_LARGE_ACTORS, MAX_LARGE_PIDS, MAX_PIDS, MAX_ROWS,
    WIDE_WORDS, WORD_BITS, Widths,
};

/// As many keys as a split leaves on both sides at least.
const LEAF_KEYS: u64 = 8;

/// How many leaves there are for each page above them at least, but for the root.
const LEAVES_BELOW: u64 = 6;

/// The rows of the longest chain: a base under as many deltas as make a consolidation due.
const CHAIN_ROWS: u64 = 9;

/// How many PIDs a seat may hold back: a spare one, and those of ten pages in limbo, as one deletion may leave in a tree whose root is at
/// level 4.
const SEAT_PIDS: u64 = 11;

/// How many rows a seat may hold back: two spare ones, and the most that one deletion in such a tree was measured to leave in limbo.
const SEAT_ROWS: u64 = 120;

/// The deltas of the longest chain in a large tree: as many as make a consolidation due there.
const LARGE_CHAIN_DELTAS: u64 = 2;

/// How many PIDs a seat may hold back in a large tree, whose root may be at a level twice as high.
const LARGE_SEAT_PIDS: u64 = 22;

/// How many chains a seat may hold back in a large tree.
const LARGE_SEAT_CHAINS: u64 = 80;

/// For so many pages of a large tree there is a wide row.
const PAGES_TO_A_WIDE_ROW: u64 = 64;

/// How many items a row for a page has room for. A base has no more, but for one of 20 that the merge of a page of 16 with one of 4 makes: where
/// its pairs are as long as the limits are proposed for, it may take a wide row.
const PAGE_ITEMS: u64 = 19;

/// How many bytes a key has at most, and a value.
const MAX_BYTES: u64 = 64;

/// How many bytes a word has.
const WORD_BYTES: u64 = 8;

/// How many words a line of a cache has.
const LINE_WORDS: u64 = 8;

/// In a large tree one page in so many has no keys, so that a free number is found near the word at which its taking begins.
const LARGE_SPARE: u64 = 16;

/// In a large tree with several seats at least so many pages have no keys. As long as one seat is stopped inside an operation, nothing is freed
/// that the others take out meanwhile. Two upserts of one key take the rows of such a page, so there is room for 16,384: as many as four
/// threads on two processors make in some 40 milliseconds, which is longer than a thread waits that lost its processor (bench/README.md).
const LEAST_SPARE: u64 = 8192;

/// The epoch that opens.
const FIRST_EPOCH: u64 = 1;

impl Limits {
    /// Limits that are proposed for a tree of so many different keys, which is no promise that `Full` never comes: a seat that is stopped
    /// inside an operation holds back all that the others take out meanwhile. All keys count that the tree has or ever had, in whatever
    /// order they come and go. There are enough PIDs for the pages that these keys can make, and enough rows for the longest chain of
    /// each page, with room for what each seat may hold back. Refused exactly where that is more than limits may have: above
    /// `most_keys`.
    pub fn for_keys(actors: u64, keys: u64) -> Result<Limits, BadLimits>
        ensures allowed { IsOk result ↔ AreProposed actors keys }
        ensures actors { IfOk result (λ limits. limits.actors ≡ actors) }
        ensures pids { IfOk result (λ limits. limits.pids ≡ pids_for actors keys) }
        ensures rows { IfOk result (λ limits. limits.rows ≡ rows_for actors (pids_for actors keys)) }
        ensures epoch { IfOk result (λ limits. limits.epoch ≡ 1) }
        ensures kind { IfOk result (λ limits. limits.is_large ≡ false) }
    {
        if actors > MAX_ACTORS {
            return Err(BadLimits);
        }
        let pids = pids_for(actors, keys);
        if pids > MAX_PIDS {
            return Err(BadLimits);
        }
        Limits::new(actors, pids, rows_for(actors, pids), FIRST_EPOCH)
    }

    /// As `for_keys`, for a large tree, whose pages have chains of three rows at most, and pairs of any length: some 500 bytes for each key. With
    /// several actors there is room for 16,384 updates by the others, too, while one is stopped inside an operation: 26 MB, in a tree of few
    /// keys. Refused exactly where that is more than limits of a large tree may have.
    pub fn for_many_keys(actors: u64, keys: u64) -> Result<Limits, BadLimits>
        ensures allowed { IsOk result ↔ AreProposedLarge actors keys }
        ensures actors { IfOk result (λ limits. limits.actors ≡ actors) }
        ensures pids { IfOk result (λ limits. limits.pids ≡ large_pids_for actors keys) }
        ensures rows { IfOk result (λ limits. limits.rows ≡ large_rows_for actors (large_pids_for actors keys)) }
        ensures narrow { IfOk result (λ limits. limits.narrow_rows ≡ narrow_rows_for actors (large_pids_for actors keys)) }
        ensures wide { IfOk result (λ limits. limits.rows ≡ limits.wide_from + wide_rows_for (large_pids_for actors keys)) }
        ensures narrow_words { IfOk result (λ limits. limits.narrow_words ≡ 24) }
        ensures page_words { IfOk result (λ limits. limits.page_words ≡ 344) }
        ensures epoch { IfOk result (λ limits. limits.epoch ≡ 1) }
        ensures kind { IfOk result (λ limits. limits.is_large ≡ true) }
    {
        Limits::for_pairs(actors, keys, MAX_BYTES, MAX_BYTES)
    }

    /// As `for_many_keys`, for pairs whose keys have `key_bytes` bytes at most, and whose values `value_bytes`: of 16 and 8 bytes some 141 bytes for
    /// each key, and 7 MB for a stop. A longer pair is taken, too, where there is a wide row for its page. Refused exactly where a length is
    /// above 64, or that is more than limits of a large tree may have.
    pub fn for_pairs(
        actors: u64,
        keys: u64,
        key_bytes: u64,
        value_bytes: u64,
    ) -> Result<Limits, BadLimits>
        ensures allowed { IsOk result ↔ AreProposedPairs actors keys key_bytes value_bytes }
        ensures actors { IfOk result (λ limits. limits.actors ≡ actors) }
        ensures pids { IfOk result (λ limits. limits.pids ≡ large_pids_for actors keys) }
        ensures rows { IfOk result (λ limits. limits.rows ≡ large_rows_for actors (large_pids_for actors keys)) }
        ensures narrow { IfOk result (λ limits. limits.narrow_rows ≡ narrow_rows_for actors (large_pids_for actors keys)) }
        ensures wide { IfOk result (λ limits. limits.rows ≡ limits.wide_from + wide_rows_for (large_pids_for actors keys)) }
        ensures narrow_words { IfOk result (λ limits. limits.narrow_words ≡ narrow_words_for key_bytes value_bytes) }
        ensures page_words { IfOk result (λ limits. limits.page_words ≡ page_words_for key_bytes value_bytes) }
        ensures epoch { IfOk result (λ limits. limits.epoch ≡ 1) }
        ensures kind { IfOk result (λ limits. limits.is_large ≡ true) }
    {
        if actors > MAX_LARGE_ACTORS || key_bytes > MAX_BYTES || value_bytes > MAX_BYTES {
            return Err(BadLimits);
        }
        let pids = large_pids_for(actors, keys);
        if pids > MAX_LARGE_PIDS {
            return Err(BadLimits);
        }
        let narrow_rows = narrow_rows_for(actors, pids);
        let wide_from = narrow_rows + page_rows_for(actors, pids);
        let widths = Widths {
            narrow_rows,
            wide_from,
            narrow_words: narrow_words_for(key_bytes, value_bytes),
            page_words: page_words_for(key_bytes, value_bytes),
        };
        let rows = wide_from + wide_rows_for(pids);
        Limits::with_widths(actors, pids, rows, FIRST_EPOCH, widths)
    }

    /// How many keys `for_keys` takes at most for so many actors: for one actor 12,199, for 4 11,535, for 16 9,751. None where limits
    /// can't have so many actors.
    pub fn most_keys(actors: u64) -> Option<u64>
        ensures { MatchOption result ((keys : ℕ) → AreProposed actors keys → ⊥) (IsMostKeys actors) }
    {
        if !(1..=MAX_ACTORS).contains(&actors) {
            return None;
        }
        let words = (MAX_ROWS - SEAT_ROWS * actors) / (CHAIN_ROWS * WORD_BITS);
        let below_root = words * WORD_BITS - SEAT_PIDS * actors - 2;
        let leaves = below_root - (below_root + 1) / (LEAVES_BELOW + 1);
        Some(leaves * LEAF_KEYS - 1)
    }
}

/// The PIDs that so many keys can take.
fn pids_for(actors: u64, keys: u64) -> u64
    requires few { actors ≤ MAX_ACTORS }
    ensures { result ≡ pids_for actors keys }
{
    in_whole_words(1 + pages_for(keys) + SEAT_PIDS * actors)
}

/// The pages that so many keys can make.
fn pages_for(keys: u64) -> u64
    ensures pages { result ≡ pages_for keys }
    ensures few { result ≤ 2 ^ 62 }
{
    let leaves = keys / LEAF_KEYS + 1;
    leaves + leaves / LEAVES_BELOW + 1
}

/// The rows that so many PIDs can take.
fn rows_for(actors: u64, pids: u64) -> u64
    requires actors { actors ≤ MAX_ACTORS }
    requires pids { pids ≤ MAX_PIDS }
    ensures { result ≡ rows_for actors pids }
{
    in_whole_words(CHAIN_ROWS * pids + SEAT_ROWS * actors)
}

/// The PIDs that so many keys can take in a large tree.
fn large_pids_for(actors: u64, keys: u64) -> u64
    requires few { actors ≤ MAX_LARGE_ACTORS }
    ensures pids { result ≡ large_pids_for actors keys }
    ensures some { WORD_BITS ≤ result }
{
    let pages = pages_for(keys);
    let spare = spare_pages_for(actors, pages);
    in_whole_words(1 + pages + spare + LARGE_SEAT_PIDS * actors)
}

/// How many pages more there is room for in a large tree than its keys can make.
fn spare_pages_for(actors: u64, pages: u64) -> u64
    ensures spare { result ≡ spare_pages_for actors pages }
    ensures few { result ≤ pages + LEAST_SPARE }
{
    let least = if actors > 1 { LEAST_SPARE } else { 0 };
    (pages / LARGE_SPARE).max(least)
}

/// The rows that the deltas of so many pages can take in a large tree.
fn narrow_rows_for(actors: u64, pids: u64) -> u64
    requires actors { actors ≤ MAX_LARGE_ACTORS }
    requires pids { pids ≤ MAX_LARGE_PIDS }
    ensures { result ≡ narrow_rows_for actors pids }
{
    in_whole_words(LARGE_CHAIN_DELTAS * (pids + LARGE_SEAT_CHAINS * actors))
}

/// The rows that the bases of so many pages can take in a large tree.
fn page_rows_for(actors: u64, pids: u64) -> u64
    requires actors { actors ≤ MAX_LARGE_ACTORS }
    requires pids { pids ≤ MAX_LARGE_PIDS }
    ensures { result ≡ page_rows_for actors pids }
{
    in_whole_words(pids + LARGE_SEAT_CHAINS * actors)
}

/// The rows for records that have no room in another one.
fn wide_rows_for(pids: u64) -> u64
    requires pids { pids ≤ MAX_LARGE_PIDS }
    ensures { result ≡ wide_rows_for pids }
{
    in_whole_words(pids / PAGES_TO_A_WIDE_ROW)
}

/// How many words a put of a pair of such lengths takes.
fn narrow_words_for(key_bytes: u64, value_bytes: u64) -> u64
    requires key { key_bytes ≤ MAX_BYTES }
    requires value { value_bytes ≤ MAX_BYTES }
    ensures { result ≡ narrow_words_for key_bytes value_bytes }
{
    in_whole_lines(4 + tail_words_for(key_bytes) + text_words_for(value_bytes))
}

/// How many words a base of as many pairs of such lengths takes as a base gets at most.
fn page_words_for(key_bytes: u64, value_bytes: u64) -> u64
    requires key { key_bytes ≤ MAX_BYTES }
    requires value { value_bytes ≤ MAX_BYTES }
    ensures { result ≡ page_words_for key_bytes value_bytes }
{
    let item_words = 2 + tail_words_for(key_bytes) + text_words_for(value_bytes);
    in_whole_lines(2 + 2 * text_words_for(key_bytes) + PAGE_ITEMS * item_words)
}

/// How many words so many bytes take.
fn text_words_for(bytes: u64) -> u64
    requires { bytes ≤ MAX_BYTES }
    ensures words { result ≡ text_words_for bytes }
    ensures few { result ≤ 8 }
{
    bytes.div_ceil(WORD_BYTES)
}

/// How many words a key of so many bytes takes behind its first one.
fn tail_words_for(bytes: u64) -> u64
    requires { bytes ≤ MAX_BYTES }
    ensures words { result ≡ tail_words_for bytes }
    ensures few { result ≤ 7 }
{
    bytes.saturating_sub(WORD_BYTES).div_ceil(WORD_BYTES)
}

/// As many words, up to the end of the last line.
fn in_whole_lines(words: u64) -> u64
    requires { words ≤ WIDE_WORDS }
    ensures { result ≡ in_whole_lines words }
{
    words.div_ceil(LINE_WORDS) * LINE_WORDS
}

/// As many, up to the end of the last word.
fn in_whole_words(count: u64) -> u64
    requires { count ≤ 2 ^ 63 }
    ensures { result ≡ in_whole_words count }
{
    count.div_ceil(WORD_BITS) * WORD_BITS
}
