// The orders in which workloads take the keys.
ghost use Rattle.std.specs.Prelude.{◌≡◌, IfOk};
ghost use Rattle.std.specs.List.{range_with_len};
ghost use Rattle.std.specs.List.Sorted.{IsPermutation};

use crate::workloads::Order;
use rand_core::{Rng, SeedableRng};
use rand_xoshiro::SplitMix64;
use std::alloc::{AllocError, Global};

/// The seed of the order of puts.
const PUT_SEED: u64 = 1;

/// The seed of the order of reads.
const READ_SEED: u64 = 2;

/// The orders of a run, each of as many ids as there are keys.
#[derive(Drop)]
pub struct Orders {
    rising: Vec<u64>,
    puts: Vec<u64>,
    reads: Vec<u64>,
    same: Vec<u64>,
}

impl Orders {
    pub fn new(alloc: Global, count: usize) -> Result<Orders, AllocError> {
        Ok(Orders {
            rising: in_order(alloc, count)?,
            puts: shuffled(alloc, count, PUT_SEED)?,
            reads: shuffled(alloc, count, READ_SEED)?,
            same: vec![in alloc; 0; count]?,
        })
    }

    /// The first ids of an order, so many at most.
    pub fn first(&self, order: Order, most: usize) -> &[u64] {
        let ids = match order {
            Order::Rising => &self.rising,
            Order::Puts => &self.puts,
            Order::Reads => &self.reads,
            Order::Same => &self.same,
        };
        &ids[..ids.len().min(most)]
    }
}

/// The numbers below `count`, rising.
pub fn in_order(alloc: Global, count: usize) -> Result<Vec<u64>, AllocError>
    ensures { IfOk result (λ order. order.items ≡ range_with_len 0 count) }
{
    (0..count as u64).collect(alloc)
}

/// The numbers below `count` in an order that the seed alone determines.
pub fn shuffled(alloc: Global, count: usize, seed: u64) -> Result<Vec<u64>, AllocError>
    ensures { IfOk result (λ order. IsPermutation (range_with_len 0 count) order.items) }
{
    let mut order = in_order(alloc, count)?;
    shuffle(&mut order, seed);
    Ok(order)
}

/// The shuffle of Fisher and Yates over splitmix64: from place 1 on, what stands at a place changes places with what
/// stands at the generator's next number modulo the places so far, this one among them.
fn shuffle(order: &mut [u64], seed: u64)
    ensures { IsPermutation order.old order.new }
{
    let mut random = SplitMix64::seed_from_u64(seed);
    for place in 1..order.len() {
        let other = random.next_u64() % (place as u64 + 1);
        order.swap(place, other as usize);
    }
}
