//! Words that are loaded and not read as records: how fast rows can be read at most.
ghost use Rattle.std.specs.Prelude.{◌≡◌, ◌<◌, ◌≤◌, ◌+◌, ◌*◌, length};
ghost use Rattle.record_slots.specs.declared.layout.TheConstants.{ROW_WORDS};

use crate::amounts::{Done, Scale};
use atomic_table::{Shared, Table, TableRule};
use rand_core::SeedableRng;
use rand_core::utils::NextWord;
use rand_pcg::Pcg32;
use record_slots::{FIRST_ITEM, FIRST_KEY, ITEM_WORDS, ROW_WORDS};
use std::alloc::Global;
use std::thread::{Threads, map_indices};
use std::time::{Clock, Instant};

/// How many rows the table has.
const ROWS: u32 = 16384;

/// How many items a row has.
const ITEMS: usize = 16;

/// An odd number, which scatters the rows of a way over the table.
const SCATTER: u32 = 7919;

/// Which words an operation loads.
#[derive(Clone, Copy)]
pub(crate) enum Loads {
    /// All of drawn rows.
    Drawn,
    /// All of the rows of a way from a root to a leaf.
    Ways,
    /// Those that a search looks at on such a way, row after row.
    Looks,
}

impl Loads {
    /// What the word names: drawn rows, if it is neither of the others.
    pub(crate) fn named(word: &str) -> Loads {
        match word {
            "ways" => Loads::Ways,
            "looks" => Loads::Looks,
            _ => Loads::Drawn,
        }
    }
}

/// The rule of words that may be any numbers.
struct AnyWords;

impl TableRule<(), (), ()> for AnyWords {
    ghost holds = { λ key state. Unit {0} };

    ghost first = { λ key. tt };
}

type Words = Shared<(), (), (), AnyWords>;

/// Loads words of rows in threads; none without memory or a clock.
pub(crate) fn run<R: Threads + Clock + Sync>(
    rt: &R,
    alloc: Global,
    loads: Loads,
    scale: Scale,
) -> Option<Done> {
    let mut words = vec![in alloc; 0u64; ROWS as usize * ROW_WORDS].ok()?;
    for row in 0..ROWS as usize {
        fill(&mut words, row);
    }
    let opened = Table::<(), (), (), AnyWords, Global>::of_words(alloc, words.as_slice(), &());
    let (table, _) = opened.ok()?;
    let shared = &table.shared;
    let read = |thread: usize| -> u64
        requires { shared.now.table_id.words ≡ ROWS * ROW_WORDS }
    { read(shared, loads, scale, thread as u64) };
    let start = Instant::now(rt).ok()?;
    let all = map_indices(rt, alloc, scale.threads as usize, &read).ok()?;
    let time = start.elapsed(rt).ok()?;
    let count = all.iter().fold(0u64, |sum, done| sum.saturating_add(*done));
    Some(Done { count, time })
}

/// Gives each item of a row a first word above that of the item before.
fn fill(words: &mut [u64], row: usize)
    requires range { row < ROWS }
    requires words { length words.old ≡ ROWS * ROW_WORDS }
    ensures { length words.new ≡ length words.old }
{
    for item in 0..ITEMS {
        words[row * ROW_WORDS + FIRST_ITEM + ITEM_WORDS * item + 1] = (item as u64) << 60;
    }
}

/// How many operations of one thread have read what stands there.
fn read(words: &Words, loads: Loads, scale: Scale, seed: u64) -> u64
    requires { words.now.table_id.words ≡ ROWS * ROW_WORDS }
{
    let mut drawn = Pcg32::seed_from_u64(seed);
    let mut done = 0u64;
    for _ in 0..scale.operations {
        let folded = match loads {
            Loads::Drawn => folded(words, scale.size, &mut drawn),
            Loads::Ways => way(words, scale.size, drawn.next_word()),
            Loads::Looks => looks(words, scale.size, drawn.next_word()),
        };
        if folded == 0 {
            done = done.saturating_add(1);
        }
    }
    done
}

/// All words of so many drawn rows, folded into one.
fn folded(words: &Words, rows: u32, drawn: &mut Pcg32) -> u64
    requires { words.now.table_id.words ≡ ROWS * ROW_WORDS }
{
    let mut folded = 0;
    for _ in 0..rows {
        folded ^= row(words, (drawn.next_word() % ROWS) as usize);
    }
    folded
}

/// All words of so many rows on a way from a root to a leaf, folded into one.
fn way(words: &Words, rows: u32, number: u32) -> u64
    requires { words.now.table_id.words ≡ ROWS * ROW_WORDS }
{
    let mut folded = 0;
    for record in 0..rows {
        folded ^= row(words, row_on_way(record, number));
    }
    folded
}

/// What a search looks at for a key in so many rows on such a way, folded into one: a slot, a base and three deltas by turns. Which slot
/// and row come next waits for what was found in the row before: a delta says which row is under it.
fn looks(words: &Words, rows: u32, number: u32) -> u64
    requires { words.now.table_id.words ≡ ROWS * ROW_WORDS }
{
    let key = u64::from(number) << 32;
    let mut folded = 0;
    let mut found = 0;
    for record in 0..rows {
        if record % 4 == 0 {
            found ^= slot(words, number.wrapping_add(found));
            found = place_in(words, row_on_way(record, number.wrapping_add(found)), key);
        } else {
            let row = row_on_way(record, number.wrapping_add(found));
            folded ^= first_of(words, row);
            found ^= next_of(words, row);
        }
    }
    folded
}

/// The row of a record on a way: of five levels by turns, which have 1, 2, 16, 128 and 2,048 pages. The number says which pages.
fn row_on_way(record: u32, number: u32) -> usize
    ensures { result < ROWS }
{
    let pages: u32 = match record % 5 {
        0 => 1,
        1 => 2,
        2 => 16,
        3 => 128,
        _ => 2048,
    };
    let place = record.wrapping_mul(2731).wrapping_add(number % pages);
    (place.wrapping_mul(SCATTER) % ROWS) as usize
}

/// What stands in place of a slot, one of 4,096; none has an odd number.
fn slot(words: &Words, number: u32) -> u32
    requires { words.now.table_id.words ≡ ROWS * ROW_WORDS }
{
    (words.peek((number.wrapping_mul(SCATTER) % 4096) as usize) % 2) as u32
}

/// How many of a row's items but the last are below the key, by bisection over their first words.
fn place_in(words: &Words, row: usize, key: u64) -> u32
    requires range { row < ROWS }
    requires words { words.now.table_id.words ≡ ROWS * ROW_WORDS }
{
    let halved = upper(words, row, 0, 8, key);
    let quartered = upper(words, row, halved, 4, key);
    let last = upper(words, row, quartered, 2, key);
    upper(words, row, last, 1, key) as u32
}

/// The place behind so many items from a place on, if the last of them is below the key; else that place.
fn upper(words: &Words, row: usize, from: usize, count: usize, key: u64) -> usize
    requires range { row < ROWS }
    requires words { words.now.table_id.words ≡ ROWS * ROW_WORDS }
    requires some { 0 < count }
    requires within { from + count ≤ ITEMS }
    ensures { result ≤ from + count }
{
    let item = row * ROW_WORDS + FIRST_ITEM + ITEM_WORDS * (from + count - 1);
    if words.peek(item + 1) < key {
        return from + count;
    }
    from
}

/// The row under a delta, in place of which stands 0.
fn next_of(words: &Words, row: usize) -> u32
    requires range { row < ROWS }
    requires words { words.now.table_id.words ≡ ROWS * ROW_WORDS }
{
    (words.peek(row * ROW_WORDS + 1) % 2) as u32
}

/// A delta's first word, and of its key the length and the first word; folded into one.
fn first_of(words: &Words, row: usize) -> u64
    requires range { row < ROWS }
    requires words { words.now.table_id.words ≡ ROWS * ROW_WORDS }
{
    let at = row * ROW_WORDS;
    words.peek(at) ^ words.peek(at + FIRST_KEY) ^ words.peek(at + FIRST_KEY + 1)
}

/// The words of a row, folded into one.
fn row(words: &Words, row: usize) -> u64
    requires range { row < ROWS }
    requires words { words.now.table_id.words ≡ ROWS * ROW_WORDS }
{
    let mut folded = 0;
    for place in 0..ROW_WORDS {
        folded ^= words.peek(row * ROW_WORDS + place);
    }
    folded
}
