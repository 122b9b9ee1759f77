//! Makes a test run out of memory. The test has a process of its own.
//! All memory that the process could get is taken, and from run to run a little more of it is left.
use std::alloc::{AllocError, Global};

/// How many bytes more are left from run to run. The C library allocates no fewer.
pub const STEP: usize = 16;

/// How many runs there are at most.
pub const RUNS: usize = 10_000;

// How many blocks of one size are asked for, at most.
const MOST: u32 = 20_000;

// The memory that is left for the runs, in blocks that the C library keeps in its heap.
// The C library also keeps small blocks for their size, which lie scattered between these. So there are many.
const POOL_BLOCKS: u32 = 400;

const POOL_BLOCK: usize = 100_000;

// A freed block of at most a kilobyte may be kept for its own size alone. This one is larger.
const PLUG: usize = 4_096;

/// Takes all memory but a pool. The memory stays taken as long as the list lives.
pub fn hoard(alloc: Global) -> Result<Vec<Vec<u8>>, AllocError> {
    let mut blocks = Vec::with_capacity(alloc, 100_000)?;
    let mut pool = Vec::with_capacity(alloc, 400)?;
    for _ in 0..POOL_BLOCKS {
        let block: Vec<u8> = Vec::with_capacity(alloc, POOL_BLOCK)?;
        pool.push(block)?;
    }
    // A block behind the pool keeps the pool in the heap.
    let behind = Vec::with_capacity(alloc, 100)?;
    blocks.push(behind)?;
    take_all(alloc, &mut blocks, 1 << 46);
    Ok(blocks)
}

/// Takes all of the pool but these bytes. The memory stays taken as long as the list lives.
pub fn leave(alloc: Global, bytes: usize) -> Result<Vec<Vec<u8>>, AllocError> {
    let mut blocks = Vec::with_capacity(alloc, 3_000)?;
    let room: Vec<u8> = Vec::with_capacity(alloc, bytes.saturating_add(PLUG))?;
    take_all(alloc, &mut blocks, 1 << 17);
    drop(room);
    let plug = Vec::with_capacity(alloc, PLUG - 16)?;
    blocks.push(plug)?;
    Ok(blocks)
}

/// Whether even the least memory is refused.
pub fn is_none_left(alloc: Global) -> bool {
    let least: Result<Vec<u8>, AllocError> = Vec::with_capacity(alloc, 1);
    least.is_err()
}

// Takes all memory that can be had, in blocks of at most so many bytes: half as many each time.
// Below a kilobyte it takes each size for which the C library keeps blocks.
fn take_all(alloc: Global, blocks: &mut Vec<Vec<u8>>, most: usize) {
    let mut size = most;
    for _ in 0..64u32 {
        if size < 1_024 {
            break;
        }
        take_size(alloc, blocks, size);
        size /= 2;
    }
    for step in 0..64usize {
        take_size(alloc, blocks, 1_024 - 16 * step);
    }
}

// Takes blocks of this size until one is refused, or the list is full.
fn take_size(alloc: Global, blocks: &mut Vec<Vec<u8>>, size: usize) {
    for _ in 0..MOST {
        let Ok(block) = Vec::with_capacity(alloc, size) else {
            return;
        };
        if blocks.push(block).is_err() {
            return;
        }
    }
}
