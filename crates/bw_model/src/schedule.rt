//! Whose turn it is, drawn at random from a seed.
ghost use Rattle.std.specs.Prelude.{◌≡◌, ◌<◌, ◌≤◌, ◌∷◌, []};
ghost use Rattle.tree_limits.specs.Limits.{most_large_actors};
ghost use Rattle.bw_model.specs.Schedules.{drawn, moved_on, next_actor, schedule_of};

use rand_core::SeedableRng;
use rand_core::utils::NextWord;
use rand_pcg::Pcg32;
use std::marker::Model;

/// An endless list of actors, which a seed gives: the words of the generator PCG32 (O'Neill, 2014), each modulo the number of
/// actors. A draw takes no memory.
#[derive(Drop)]
pub struct Schedule {
    generator: Pcg32,
    actors: u8,
}

impl Model for Schedule {
    ghost use Rattle.std.specs.Prelude.{◌≤◌};
    ghost use Rattle.tree_limits.specs.Limits.{most_large_actors};
    ghost use Rattle.bw_model.specs.Schedules.{Schedule};

    ghost Value = { Schedule };

    ghost view = { λ s. record { generator = s.generator; actors = s.actors } };

    ghost invariant = { λ s. (1 ≤ s.actors) × (s.actors ≤ most_large_actors) };
}

impl Schedule {
    /// The schedule of this seed, over 1 to 63 actors.
    pub fn new(seed: u64, actors: u8) -> Schedule
        requires some { 1 ≤ actors }
        requires few { actors ≤ most_large_actors }
        ensures { result ≡ schedule_of seed actors }
    {
        Schedule {
            generator: Pcg32::seed_from_u64(seed),
            actors,
        }
    }

    /// Draws the next actor.
    pub fn next(&mut self) -> u8
        ensures actor { result ≡ next_actor self.old }
        ensures rest { self.new ≡ moved_on self.old }
        ensures within { result < self.old.actors }
    {
        let word = self.generator.next_word();
        (word % u32::from(self.actors)) as u8
    }
}
