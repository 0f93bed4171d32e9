// Ids as blocks of bits.
ghost use Rattle.std.specs.Prelude.{◌≡◌, ℕ, ◌+◌, ◌<◌, ◌≤◌, ◌^◌, ◌==◌, ◌/◌, true, false, [], ◌∷◌, length, drop, slice_index_or, slice_set, OnOk, OnErr, IsOk, IfOk, IfErr};
ghost use Rattle.smallvec.specs.SmallVec.{small_vec_len, HasRoomFor};
ghost use Rattle.rt_values.specs.Maps.{contains};
ghost use Rattle.snap_ids.specs.IdLists.{IsRising, with_ids, without_ids};
ghost use Rattle.snap_ids.specs.IdWindows.{IsLeastFrom};
ghost use Rattle.snap_ids.specs.IdBlocks.{block_ids, numbers, bits_of, block_at, cleared, AreFull, AreInRange, AreBlocks};

use crate::bits::{WIDTH, first_above, has_bit};
use rt_values::NoMemory;
use smallvec::SmallVec;
use std::alloc::Global;

/// A block of 64 ids. Its lowest bit is that of 64 times the number.
#[derive(Clone, Copy, Default)]
pub struct Block {
    pub number: u64,
    pub bits: u64,
}

/// Blocks in increasing order of their numbers. Up to four need no allocation.
pub type Blocks = SmallVec<Block, 4>;

// Returns the index of the first block whose number is at least `number`, by binary search from index `from` on.
fn search_from(blocks: &[Block], from: usize, number: u64) -> usize
    requires order { IsRising (numbers blocks.now) }
    requires within { from ≤ length blocks.now }
    requires passed { (j : ℕ) → j < from → slice_index_or (numbers blocks.now) j 0 < number }
    ensures within { result ≤ length blocks.now }
    ensures before { (j : ℕ) → j < result → slice_index_or (numbers blocks.now) j 0 < number }
    ensures after { result < length blocks.now → number ≤ slice_index_or (numbers blocks.now) result 0 }
{
    let mut low = from;
    let mut high = blocks.len();
    while low < high {
        let middle = low + (high - low) / 2;
        if blocks[middle].number < number {
            low = middle + 1;
        } else {
            high = middle;
        }
    }
    low
}

// Returns the index of the first block whose number is at least `number`. Looks at the last two blocks first, which are
// read most.
#[inline]
fn lower_bound(blocks: &[Block], number: u64) -> usize
    requires { IsRising (numbers blocks.now) }
    ensures within { result ≤ length blocks.now }
    ensures before { (j : ℕ) → j < result → slice_index_or (numbers blocks.now) j 0 < number }
    ensures after { result < length blocks.now → number ≤ slice_index_or (numbers blocks.now) result 0 }
{
    let len = blocks.len();
    if len == 0 || blocks[len - 1].number < number {
        return len;
    }
    if len == 1 || blocks[len - 2].number < number {
        return len - 1;
    }
    search_from(blocks, 0, number)
}

// Returns the index of the block with this number, or the index where it belongs.
fn find(blocks: &[Block], number: u64) -> Result<usize, usize>
    requires { IsRising (numbers blocks.now) }
    ensures there { IfOk result (λ at. at < length blocks.now) }
    ensures number { IfOk result (λ at. (block_at blocks.now at).number ≡ number) }
    ensures within { IfErr result (λ at. at ≤ length blocks.now) }
    ensures before { IfErr result (λ at. (j : ℕ) → j < at → slice_index_or (numbers blocks.now) j 0 < number) }
    ensures after { IfErr result (λ at. at < length blocks.now → number < slice_index_or (numbers blocks.now) at 0) }
{
    let at = lower_bound(blocks, number);
    if at < blocks.len() && blocks[at].number == number {
        Ok(at)
    } else {
        Err(at)
    }
}

// Returns the bits of the block with this number. No such block has no bits.
fn find_bits(blocks: &[Block], number: u64) -> u64
    requires { IsRising (numbers blocks.now) }
    ensures { result ≡ bits_of blocks.now number }
{
    match find(blocks, number) {
        Ok(at) => blocks[at].bits,
        Err(_) => 0,
    }
}

// Returns the bits of the block with this number, as `find_bits`. Looks at the last block first, which is read most.
#[inline]
fn bits_at(blocks: &[Block], number: u64) -> u64
    requires { IsRising (numbers blocks.now) }
    ensures { result ≡ bits_of blocks.now number }
{
    let len = blocks.len();
    if len == 0 || blocks[len - 1].number < number {
        return 0;
    }
    if blocks[len - 1].number == number {
        return blocks[len - 1].bits;
    }
    find_bits(blocks, number)
}

/// Returns whether the blocks have `id`.
#[inline]
pub fn has_id(blocks: &[Block], id: u64) -> bool
    requires { IsRising (numbers blocks.now) }
    ensures { result ≡ contains id (block_ids blocks.now) }
{
    has_bit(bits_at(blocks, id / WIDTH), id % WIDTH)
}

/// Returns the lowest id of the blocks from an index on.
pub fn first_at(blocks: &[Block], index: usize) -> Option<u64>
    requires { AreBlocks blocks.now }
    ensures { IsLeastFrom 0 (block_ids (drop index blocks.now)) result }
{
    if index >= blocks.len() {
        return None;
    }
    Some(WIDTH * blocks[index].number + u64::from(blocks[index].bits.trailing_zeros()))
}

/// Returns the lowest id that is greater than `id`.
pub fn next_id(blocks: &[Block], id: u64) -> Option<u64>
    requires { AreBlocks blocks.now }
    ensures { IsLeastFrom (id + 1) (block_ids blocks.now) result }
{
    let at = lower_bound(blocks, id / WIDTH);
    if at >= blocks.len() {
        return None;
    }
    match first_above(WIDTH * blocks[at].number, blocks[at].bits, id) {
        Some(next) => Some(next),
        None => first_at(blocks, at + 1),
    }
}

/// Returns a block with only `id`.
#[inline]
pub fn block_of(id: u64) -> Block
    ensures ids { block_ids (result ∷ []) ≡ id ∷ [] }
    ensures sound { AreBlocks (result ∷ []) }
{
    Block {
        number: id / WIDTH,
        bits: 1u64 << (id % WIDTH),
    }
}

// Replaces the block at an index.
fn set_block(blocks: &mut Blocks, index: usize, block: Block)
    requires { index < small_vec_len blocks.old }
    ensures items { blocks.new.items ≡ slice_set blocks.old.items index block }
    ensures len { small_vec_len blocks.new ≡ small_vec_len blocks.old }
    ensures capacity { blocks.new.capacity ≡ blocks.old.capacity }
{
    blocks[index] = block;
}

/// Adds the ids of a block. After `NoMemory` the blocks are unchanged.
pub fn add_block(blocks: &mut Blocks, block: Block) -> Result<(), NoMemory>
    requires sound { AreBlocks blocks.old.items }
    requires block { AreBlocks (block ∷ []) }
    ensures ids { OnOk result (block_ids blocks.new.items ≡ with_ids (block_ids blocks.old.items)
        (block_ids (block ∷ []))) }
    ensures err { OnErr result (blocks.new.items ≡ blocks.old.items) }
    ensures sound { AreBlocks blocks.new.items }
    ensures succeeds { HasRoomFor blocks.old 1 → IsOk result }
    ensures len { small_vec_len blocks.new ≤ small_vec_len blocks.old + 1 }
    ensures capacity { blocks.old.capacity ≤ blocks.new.capacity }
{
    match find(blocks, block.number) {
        Ok(at) => {
            let bits = blocks[at].bits | block.bits;
            set_block(
                blocks,
                at,
                Block {
                    number: block.number,
                    bits,
                },
            );
        }
        Err(at) => blocks.insert(at, block)?,
    }
    Ok(())
}

/// Adds the ids of the other blocks. The list must have spare capacity for all of them.
pub fn add_all_reserved(blocks: &mut Blocks, others: &[Block])
    requires sound { AreBlocks blocks.old.items }
    requires others { AreBlocks others.now }
    requires room { HasRoomFor blocks.old (length others.now) }
    ensures ids { block_ids blocks.new.items ≡ with_ids (block_ids blocks.old.items) (block_ids others.now) }
    ensures sound { AreBlocks blocks.new.items }
{
    let mut rest = others;
    while let Some((block, more)) = rest.split_first() {
        let Ok(()) = add_block(blocks, *block) else {
            unreachable!();
        };
        rest = more;
    }
}

// Adds the first of the other blocks, those with numbers below `number`, and returns the rest of them.
fn add_below<'a>(
    blocks: &mut Blocks,
    others: &'a [Block],
    number: u64,
) -> Result<&'a [Block], NoMemory>
    requires sound { AreBlocks blocks.old.items }
    requires others { AreBlocks others.now }
    ensures ids { IfOk result (λ rest. with_ids (block_ids blocks.new.items) (block_ids rest.now)
        ≡ with_ids (block_ids blocks.old.items) (block_ids others.now)) }
    ensures rest { IfOk result (λ rest. AreBlocks rest.now) }
    ensures sound { OnOk result (AreBlocks blocks.new.items) }
{
    let mut rest = others;
    while let Some((block, more)) = rest.split_first() {
        if block.number >= number {
            return Ok(rest);
        }
        add_block(blocks, *block)?;
        rest = more;
    }
    Ok(rest)
}

/// Returns the ids of both lists of blocks. Goes over each of them once.
pub fn union(alloc: Global, first: &[Block], second: &[Block]) -> Result<Blocks, NoMemory>
    requires first { AreBlocks first.now }
    requires second { AreBlocks second.now }
    ensures ids { IfOk result (λ all. block_ids all.items ≡ with_ids (block_ids first.now) (block_ids second.now)) }
    ensures sound { IfOk result (λ all. AreBlocks all.items) }
{
    let mut all = SmallVec::with_capacity(alloc, first.len().max(second.len()))?;
    let mut left = first;
    let mut right = second;
    while let Some((block, more)) = right.split_first() {
        left = add_below(&mut all, left, block.number)?;
        add_block(&mut all, *block)?;
        right = more;
    }
    all.reserve(left.len())?;
    add_all_reserved(&mut all, left);
    Ok(all)
}

// Clears bits of the block at an index, and returns whether it has no bits any more.
fn clear_bits(blocks: &mut Blocks, index: usize, bits: u64) -> bool
    requires { index < small_vec_len blocks.old }
    ensures is { blocks.new.items ≡ slice_set blocks.old.items index (cleared (block_at blocks.old.items index) bits) }
    ensures left { result ≡ ((cleared (block_at blocks.old.items index) bits).bits == 0) }
{
    let block = blocks[index];
    let left = block.bits & !bits;
    set_block(
        blocks,
        index,
        Block {
            number: block.number,
            bits: left,
        },
    );
    left == 0
}

// Returns the index of the first block whose number is at least `number`. Looks at the block at index `from` first.
fn seek(blocks: &[Block], from: usize, number: u64) -> usize
    requires order { IsRising (numbers blocks.now) }
    requires within { from ≤ length blocks.now }
    requires passed { (j : ℕ) → j < from → slice_index_or (numbers blocks.now) j 0 < number }
    ensures within { result ≤ length blocks.now }
    ensures before { (j : ℕ) → j < result → slice_index_or (numbers blocks.now) j 0 < number }
    ensures after { result < length blocks.now → number ≤ slice_index_or (numbers blocks.now) result 0 }
{
    if from < blocks.len() && blocks[from].number < number {
        return search_from(blocks, from + 1, number);
    }
    from
}

// Clears the ids of a block, which belongs at the given index. Returns whether a block may have no bits any more.
fn clear_block(blocks: &mut Blocks, at: usize, block: Block) -> bool
    requires order { IsRising (numbers blocks.old.items) }
    requires before { (j : ℕ) → j < at → slice_index_or (numbers blocks.old.items) j 0 < block.number }
    requires after { at < small_vec_len blocks.old → block.number ≤ slice_index_or (numbers blocks.old.items) at 0 }
    ensures ids { block_ids blocks.new.items ≡ without_ids (block_ids blocks.old.items) (block_ids (block ∷ [])) }
    ensures numbers { numbers blocks.new.items ≡ numbers blocks.old.items }
    ensures full { AreFull blocks.old.items → result ≡ false → AreFull blocks.new.items }
{
    if at < blocks.len() && blocks[at].number == block.number {
        return clear_bits(blocks, at, block.bits);
    }
    false
}

// Clears the ids of the other blocks, and returns whether a block may have no bits any more.
fn clear_all(blocks: &mut Blocks, others: &[Block]) -> bool
    requires sound { AreBlocks blocks.old.items }
    requires others { IsRising (numbers others.now) }
    ensures ids { block_ids blocks.new.items ≡ without_ids (block_ids blocks.old.items) (block_ids others.now) }
    ensures numbers { numbers blocks.new.items ≡ numbers blocks.old.items }
    ensures full { result ≡ false → AreFull blocks.new.items }
{
    let mut is_empty = false;
    let mut at = 0;
    let mut rest = others;
    while let Some((block, more)) = rest.split_first() {
        at = seek(blocks, at, block.number);
        is_empty |= clear_block(blocks, at, *block);
        rest = more;
    }
    is_empty
}

// Removes the blocks without bits.
fn drop_empty(blocks: &mut Blocks)
    requires order { IsRising (numbers blocks.old.items) }
    requires range { AreInRange blocks.old.items }
    ensures ids { block_ids blocks.new.items ≡ block_ids blocks.old.items }
    ensures sound { AreBlocks blocks.new.items }
{
    let len = blocks.len();
    let mut kept = 0;
    for at in 0..len {
        let block = blocks[at];
        if block.bits != 0 {
            set_block(blocks, kept, block);
            kept += 1;
        }
    }
    blocks.truncate(kept);
}

/// Removes the ids of the other blocks.
pub fn remove_all(blocks: &mut Blocks, others: &[Block])
    requires sound { AreBlocks blocks.old.items }
    requires others { AreBlocks others.now }
    ensures ids { block_ids blocks.new.items ≡ without_ids (block_ids blocks.old.items) (block_ids others.now) }
    ensures sound { AreBlocks blocks.new.items }
{
    if clear_all(blocks, others) {
        drop_empty(blocks);
    }
}
