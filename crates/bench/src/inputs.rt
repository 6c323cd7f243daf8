//! What the kernels run over.

use rand_core::{Rng, SeedableRng};
use rand_xoshiro::SplitMix64;
use segment_desc::Segd;
use std::alloc::{AllocError, Global};

/// Random numbers, the same in each run, and lists of segments that cut as many items.
#[derive(Drop)]
pub struct Inputs {
    pub left: Vec<i64>,
    pub right: Vec<i64>,
    /// One segment of all items.
    pub whole: Segd,
    /// Segments of 1 to 100 items.
    pub mixed: Segd,
    /// Segments of one item.
    pub single: Segd,
    /// The places of all items in a random order.
    pub index: Vec<i64>,
    /// In each of the mixed segments its places in order, turned by a random number.
    pub inner: Vec<i64>,
    /// Random flags, and flags that are all set or all unset.
    pub flags: Vec<bool>,
    pub all: Vec<bool>,
    pub none: Vec<bool>,
}

fn numbers(alloc: Global, random: &mut SplitMix64, size: u32) -> Result<Vec<i64>, AllocError> {
    let mut numbers = Vec::with_capacity(alloc, size as usize)?;
    for _ in 0..size {
        numbers.push(random.next_u64().cast_signed())?;
    }
    Ok(numbers)
}

/// Segments of at most `longest` items, of random lengths from 1 on, that cut `size` items.
fn segments(
    alloc: Global,
    random: &mut SplitMix64,
    size: u32,
    longest: u64,
) -> Result<Segd, AllocError> {
    let mut lengths = Vec::new(alloc);
    let mut left = u64::from(size);
    for _segment in 0..size {
        if left == 0 {
            break;
        }
        let length = left.min(1 + random.next_u64() % longest.max(1));
        lengths.push(length.cast_signed())?;
        left = left.saturating_sub(length);
    }
    Segd::from_lengths(alloc, &lengths).map_err(|_fault| AllocError)
}

fn shuffled(alloc: Global, random: &mut SplitMix64, size: u32) -> Result<Vec<i64>, AllocError> {
    let mut places = Vec::with_capacity(alloc, size as usize)?;
    for place in 0..size {
        places.push(i64::from(place))?;
    }
    for i in 1..places.len() {
        let other = (random.next_u64() % (i as u64 + 1)) as usize;
        places.as_mut_slice().swap(i, other);
    }
    Ok(places)
}

// The places of each segment in order, turned by a random number of places.
fn turned(alloc: Global, random: &mut SplitMix64, segments: &Segd) -> Result<Vec<i64>, AllocError> {
    let mut places = Vec::with_capacity(alloc, segments.total())?;
    for &length in segments.lengths() {
        let by = random.next_u64() % (length as u64).max(1);
        for place in 0..length as u64 {
            places.push(((place + by) % length as u64).cast_signed())?;
        }
    }
    Ok(places)
}

fn flags(alloc: Global, random: &mut SplitMix64, size: u32) -> Result<Vec<bool>, AllocError> {
    let mut flags = Vec::with_capacity(alloc, size as usize)?;
    for _ in 0..size {
        flags.push(random.next_u64() % 2 == 1)?;
    }
    Ok(flags)
}

impl Inputs {
    /// The inputs of `size` items.
    pub fn new(alloc: Global, size: u32) -> Result<Inputs, AllocError> {
        let mut random = SplitMix64::seed_from_u64(u64::from(size));
        let left = numbers(alloc, &mut random, size)?;
        let right = numbers(alloc, &mut random, size)?;
        let mixed = segments(alloc, &mut random, size, 100)?;
        let mut turns = SplitMix64::seed_from_u64(u64::from(size));
        Ok(Inputs {
            left,
            right,
            whole: Segd::from_lengths(alloc, &[i64::from(size)]).map_err(|_fault| AllocError)?,
            inner: turned(alloc, &mut turns, &mixed)?,
            mixed,
            single: segments(alloc, &mut random, size, 1)?,
            index: shuffled(alloc, &mut random, size)?,
            flags: flags(alloc, &mut random, size)?,
            all: vec![in alloc; true; size as usize]?,
            none: vec![in alloc; false; size as usize]?,
        })
    }
}
