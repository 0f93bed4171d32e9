//! A list with spare capacity, for runs of edits near one index: the gap buffer of the `SlotTable`.
//!
//! The slot table keeps its groups in such a list. Contracts see the items and the spare capacity
//! (`specs/Buffer.antt`), and name neither the gap nor its index, so the storage can change below them. At present
//! the storage is one `Vec`. Promises: only `reserve` takes memory. `insert` uses one unit of the spare capacity, and
//! `remove` gives one back.
#![tactic(auto)]

ghost use Rattle.std.specs.Prelude.{◌≡◌, ◌≤◌, ◌<◌, ◌+◌, ◌++◌, [], length, take, slice_index_or, slice_set, OnOk};
ghost use Rattle.std.specs.List.{insert, remove, swap};
ghost use Rattle.gap_buffer.specs.Buffer.{exchanged_list, list_after_move};

use std::alloc::{AllocError, Global};
use std::marker::Model;
use std::mem;

/// A list with spare capacity.
#[derive(Drop)]
pub struct GapBuf<T> {
    items: Vec<T>,
}

impl<T> Model for GapBuf<T> {
    ghost use Rattle.std.specs.Prelude.{◌-◌, vec_len, vec_capacity};
    ghost use Rattle.gap_buffer.specs.Buffer.{Buffer, buffer_code};

    ghost Value = { Buffer T };

    ghost coded = { buffer_code T.code };

    ghost view = { λ b. record { items = b.items.items; spare = vec_capacity b.items - vec_len b.items } };
}

// Exchanges the items from `from` to `middle` with those from `middle` to `to`.
fn exchange<T>(items: &mut [T], from: usize, middle: usize, to: usize)
    requires order { (from ≤ middle) × (middle ≤ to) }
    requires inside { to ≤ length items.old }
    ensures { items.new ≡ exchanged_list from middle to items.old }
{
    let (front, _after) = items.split_at_mut(to);
    let (_before, both) = front.split_at_mut(from);
    both.rotate_left(middle - from);
}

impl<T> GapBuf<T> {
    /// Returns the empty list.
    pub fn new(alloc: Global) -> Self
        ensures { result.items ≡ [] }
    {
        GapBuf {
            items: Vec::new(alloc),
        }
    }

    /// Returns the list of `items`. Takes no memory.
    pub fn from_vec(items: Vec<T>) -> Self
        ensures { result.items ≡ items.items }
    {
        GapBuf { items }
    }

    /// Returns the number of items.
    pub fn len(&self) -> usize
        ensures { result ≡ length self.now.items }
    {
        self.items.len()
    }

    /// Returns the item at index `i`.
    pub fn get(&self, i: usize) -> &T
        requires { i < length self.now.items }
        ensures { result.now ≡ slice_index_or self.now.items i result.now }
    {
        &self.items[i]
    }

    /// Replaces the item at index `i`.
    pub fn set(&mut self, i: usize, v: T)
    where
        T: Drop,
        requires { i < length self.old.items }
        ensures items { self.new.items ≡ slice_set self.old.items i v }
        ensures spare { self.new.spare ≡ self.old.spare }
    {
        self.items[i] = v;
    }

    /// Replaces the item at index `i` and returns the one that was there.
    pub fn replace(&mut self, i: usize, v: T) -> T
        requires { i < length self.old.items }
        ensures value { result ≡ slice_index_or self.old.items i result }
        ensures items { self.new.items ≡ slice_set self.old.items i v }
        ensures spare { self.new.spare ≡ self.old.spare }
    {
        mem::replace(&mut self.items[i], v)
    }

    /// Exchanges the items at indexes `i` and `j`.
    pub fn swap(&mut self, i: usize, j: usize)
        requires first { i < length self.old.items }
        requires second { j < length self.old.items }
        ensures items { self.new.items ≡ swap self.old.items i j }
        ensures spare { self.new.spare ≡ self.old.spare }
    {
        self.items.swap(i, j);
    }

    /// Keeps the first `n` items and drops the others.
    pub fn truncate(&mut self, n: usize)
    where
        T: Drop,
        ensures items { self.new.items ≡ take n self.old.items }
        ensures spare { self.new.spare + length self.new.items ≡ self.old.spare + length self.old.items }
    {
        self.items.truncate(n);
    }

    /// Makes the spare capacity at least `n`. After an error the list is unchanged.
    pub fn reserve(&mut self, n: usize) -> Result<(), AllocError>
        ensures items { self.new.items ≡ self.old.items }
        ensures room { OnOk result (n ≤ self.new.spare) }
        ensures kept { self.old.spare ≤ self.new.spare }
    {
        self.items.reserve(n)
    }

    /// Inserts `v` before the item at index `i`, or appends it if `i` is the number of items.
    pub fn insert(&mut self, i: usize, v: T)
    where
        T: Drop,
        requires index { i ≤ length self.old.items }
        requires room { 0 < self.old.spare }
        ensures items { self.new.items ≡ insert self.old.items i v }
        ensures spare { self.new.spare + 1 ≡ self.old.spare }
    {
        let _ = self.items.insert(i, v);
    }

    /// Removes and returns the item at index `i`.
    pub fn remove(&mut self, i: usize) -> T
        requires { i < length self.old.items }
        ensures value { result ≡ slice_index_or self.old.items i result }
        ensures items { self.new.items ≡ remove self.old.items i }
        ensures spare { self.new.spare ≡ self.old.spare + 1 }
    {
        self.items.remove(i)
    }

    /// Moves the `count` items at `from` to before the item at index `to`, or to the end if `to` is the number of
    /// items. Indexes are those before the move, as for `Applier.move`.
    pub fn move_range(&mut self, from: usize, to: usize, count: usize)
        requires block { from + count ≤ length self.old.items }
        requires index { to ≤ length self.old.items }
        ensures items { self.new.items ≡ list_after_move from to count self.old.items }
        ensures spare { self.new.spare ≡ self.old.spare }
    {
        let _length = self.items.len();
        let end = from + count;
        if to < from {
            exchange(&mut self.items, to, from, end);
        } else if end < to {
            exchange(&mut self.items, from, end, to);
        }
    }

    /// Returns the items before the gap and those after it. Together they are all items, in order.
    pub fn slices(&self) -> (&[T], &[T])
        ensures { result.0.now ++ result.1.now ≡ self.now.items }
    {
        self.items.split_at(self.items.len())
    }
}
