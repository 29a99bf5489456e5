//! What runs of a core are to do, and what it does where memory is refused: tests alone, over its public calls.
//!
//! Look first at `scripts`, whose lines are what actors do, and at `schedules`, which draws their order, of what `asked` draws. `plain_map`
//! is the map with which replies are compared, `stops` stops each operation after each of its steps, and `refusals` refuses each allocation
//! in turn.
//!
//! Called by nobody, and apart from `step_core`, which would be proved twice with its tests.
#![tactic(auto)]

#[cfg(test)]
mod accounts;
#[cfg(test)]
mod additions;
#[cfg(test)]
mod alone;
#[cfg(test)]
mod asked;
#[cfg(test)]
mod back_stops;
#[cfg(test)]
mod by_hand;
#[cfg(test)]
mod crowds;
#[cfg(test)]
mod deletions;
#[cfg(test)]
mod drawn_levels;
#[cfg(test)]
mod emptied;
#[cfg(test)]
mod four_levels;
#[cfg(test)]
mod in_turn;
#[cfg(test)]
mod index_removals;
#[cfg(test)]
mod level_two;
#[cfg(test)]
mod named;
#[cfg(test)]
mod numbered;
#[cfg(test)]
mod numbers;
#[cfg(test)]
mod plain_map;
#[cfg(test)]
mod planned_above;
#[cfg(test)]
mod refusals;
#[cfg(test)]
mod refused_help;
#[cfg(test)]
mod removal_neighbours;
#[cfg(test)]
mod removal_readers;
#[cfg(test)]
mod removal_stops;
#[cfg(test)]
mod reuse;
#[cfg(test)]
mod runs;
#[cfg(test)]
mod schedules;
#[cfg(test)]
mod scripts;
#[cfg(test)]
mod sleeping;
#[cfg(test)]
mod standing;
#[cfg(test)]
mod stood;
#[cfg(test)]
mod stops;
#[cfg(test)]
mod stops_above;
#[cfg(test)]
mod swaps;
#[cfg(test)]
mod sweeps;
#[cfg(test)]
mod tally;
#[cfg(test)]
mod tides;
#[cfg(test)]
mod walk_ways;
#[cfg(test)]
mod walks;
#[cfg(test)]
mod windows;
#[cfg(test)]
mod worded;
