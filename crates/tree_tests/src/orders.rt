//! In which order numbered keys come and go.

use rand_core::SeedableRng;
use rand_core::utils::NextWord;
use rand_pcg::Pcg32;
use std::alloc::{AllocError, Global};

/// An order of keys.
#[derive(Clone, Copy, Debug)]
pub(crate) enum Order {
    /// From the lowest on.
    Up,
    /// From the highest on.
    Down,
    /// As the generator PCG32 (O'Neill, 2014) draws it from a seed.
    Drawn,
}

/// The numbers below a count in an order; a drawn one is that of the seed.
pub(crate) fn numbers(
    alloc: Global,
    count: u32,
    order: Order,
    seed: u64,
) -> Result<Vec<u32>, AllocError> {
    let mut list = Vec::new(alloc);
    for place in 0..count {
        list.push(at(count, order, place))?;
    }
    if let Order::Drawn = order {
        shuffle(list.as_mut_slice(), seed);
    }
    Ok(list)
}

/// All numbers below a count but each eighth, from the lowest on.
pub(crate) fn but_eighths(alloc: Global, count: u32) -> Result<Vec<u32>, AllocError> {
    let mut list = Vec::new(alloc);
    for number in 0..count {
        if number % 8 != 0 {
            list.push(number)?;
        }
    }
    Ok(list)
}

/// The number at a place, before any draw.
fn at(count: u32, order: Order, place: u32) -> u32 {
    match order {
        Order::Down => count.saturating_sub(1).saturating_sub(place),
        Order::Up | Order::Drawn => place,
    }
}

/// Puts the numbers into a drawn order.
fn shuffle(numbers: &mut [u32], seed: u64) {
    let mut drawn = Pcg32::seed_from_u64(seed);
    for place in 1..numbers.len() {
        let other = drawn.next_word() as usize % (place + 1);
        numbers.swap(place, other);
    }
}
