//! Does one thing again and again, as often as the command line says: a program for scripts of bench/.
//!
//! Look first at `What` (worker). Called by nobody but those scripts; it has no contract, and no claim rests on it.
//!
//! `bench WHAT TIMES`: it reads a row of words as a record: a put where WHAT is `put`, or a leaf of 24 items whose keys and values have 4
//! bytes where it is `short`, 64 where it is `long`. It prints how often that succeeded; bench/rows.sh times it.
//!
//! `bench WHAT SIZE THREADS OPERATIONS BYTES`: it opens a tree, a large one where SIZE is above 20,000, and inserts SIZE keys of so many
//! bytes, 16 at least, by one seat. That is all where WHAT is `load`, or `ascend`, which inserts them in ascending order. Where it is `reads`,
//! `half` or `scans`, each of so many threads then does so many operations on drawn keys: lookups, upserts and lookups by turns, or pages of
//! 100 pairs. Where it is `steps` or `writes`, they do lookups or upserts, and count their steps. Where it is `window`, the tree has 256 PIDs
//! and is empty; keys come at its end, and go at its front once there are SIZE. Where it is `passing` they do in a large tree of the limits
//! that are proposed for SIZE keys, and where it is `hot` one key is upserted there: an operation that is refused is made again, and those
//! that were not refused succeed. Where it is `rows`, `ways` or `looks`, there is no tree: an operation loads the words of SIZE rows, drawn
//! ones, or those of a way over five levels, or of these the words that a search looks at. It prints how many operations succeeded or steps
//! were taken by what came last, and on standard error how many nanoseconds that took. bench/tree.sh, bench/large.sh, bench/windows.sh and
//! bench/stops.sh run it.
#![tactic(auto)]

mod amounts;
mod records;
mod rows;
mod trees;
mod worker;

use amounts::{Done, Scale};
use rows::Loads;
use std::alloc::Global;
use std::thread::Threads;
use std::time::Clock;
use std::{env, io};
use worker::What;

fn main(rt: HostRuntime) -> io::Result<()> {
    let words = env::args(&rt)?.collect::<Vec<String>>(rt.alloc())?;
    match words.as_slice() {
        [_, what, times] => {
            println!(rt; "{}", records::run(what.as_str(), number(times.as_str())))?;
        }
        [_, what, size, threads, operations, bytes] => {
            let scale = Scale {
                size: number(size.as_str()),
                threads: number(threads.as_str()),
                operations: number(operations.as_str()),
                key_bytes: number(bytes.as_str()),
            };
            let done = work(&rt, rt.alloc(), what.as_str(), scale).unwrap_or_default();
            println!(rt; "{}", done.count)?;
            eprintln!(rt; "{}", done.time.as_nanos())?;
        }
        _ => {}
    }
    Ok(())
}

/// Does what the word names in threads, over a tree or over rows; none without memory, seats or a clock.
fn work<R: Threads + Clock + Sync>(
    rt: &R,
    alloc: Global,
    what: &str,
    scale: Scale,
) -> Option<Done> {
    match What::named(what) {
        Some(what) => trees::run(rt, alloc, what, scale),
        None => rows::run(rt, alloc, Loads::named(what), scale),
    }
}

/// The number that a word is, or 0.
fn number(word: &str) -> u32 {
    word.parse::<u32>().unwrap_or(0)
}
