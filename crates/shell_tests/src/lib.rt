//! What the programs are to print, draw and race, and what they do where a stream fails: tests alone, over the public calls of the shell,
//! of `drawing`, of `filming` and of `race`.
//!
//! Look first at `runs`, which runs text and compares what is printed. Expected text is written in the tests, not taken from what a program
//! printed.
//!
//! Called by nobody, and apart from those crates, which would be proved twice with their tests.
#![tactic(auto)]

#[cfg(test)]
mod backward;
#[cfg(test)]
mod bad_lines;
#[cfg(test)]
mod breaking;
#[cfg(test)]
mod by_value;
#[cfg(test)]
mod choppy;
#[cfg(test)]
mod cursor_pages;
#[cfg(test)]
#[cfg(test)]
mod drawn;
#[cfg(test)]
mod faults;
#[cfg(test)]
mod films;
#[cfg(test)]
mod grown;
#[cfg(test)]
mod help;
#[cfg(test)]
mod interleaved;
#[cfg(test)]
mod levels;
#[cfg(test)]
mod lines;
#[cfg(test)]
mod numbered;
#[cfg(test)]
mod parts;
#[cfg(test)]
mod picture_actors;
#[cfg(test)]
mod picture_commands;
#[cfg(test)]
mod picture_items;
#[cfg(test)]
mod picture_keys;
#[cfg(test)]
mod picture_marks;
#[cfg(test)]
mod picture_runs;
#[cfg(test)]
mod picture_sizes;
#[cfg(test)]
mod race_many;
#[cfg(test)]
mod race_rows;
#[cfg(test)]
mod race_runs;
#[cfg(test)]
mod race_streams;
#[cfg(test)]
mod random_lines;
#[cfg(test)]
mod removal;
#[cfg(test)]
mod reuse;
#[cfg(test)]
mod runs;
#[cfg(test)]
mod scripts;
#[cfg(test)]
mod stopped;
#[cfg(test)]
mod streams;
#[cfg(test)]
mod swaps;
#[cfg(test)]
mod tidying;
#[cfg(test)]
mod watched;
#[cfg(test)]
mod words;
