// An applier without a tree.
ghost use Rattle.std.specs.Prelude.{None, ◌^◌};

use crate::applier::Applier;
use crate::ops::{NewNode, Ops};
use rt_streams::Failed;
use rt_values::{NoMemory, Value, Word};
use std::alloc::Global;

/// An applier without a tree: it keeps no nodes, and its calls never fail (`UnitApplier`). For a composition whose
/// nodes nobody sees.
#[derive(Drop)]
pub struct UnitApplier;

impl Applier for UnitApplier {
    ghost tree = { λ _. None };

    ghost spare = { λ _. 2 ^ 64 };

    ghost faults = { λ _. 0 };

    fn reserve(&mut self, _alloc: Global, ops: &Ops) -> Result<(), NoMemory> {
        let _count = ops.insert_count();
        Ok(())
    }

    fn down(&mut self, _index: usize) -> Result<(), Failed> {
        Ok(())
    }

    fn up(&mut self) -> Result<(), Failed> {
        Ok(())
    }

    fn insert_top_down(&mut self, _index: usize, _node: NewNode) -> Result<(), Failed> {
        Ok(())
    }

    fn insert_bottom_up(&mut self, _index: usize, _node: NewNode) -> Result<(), Failed> {
        Ok(())
    }

    fn remove(&mut self, _index: usize, _count: usize) -> Result<(), Failed> {
        Ok(())
    }

    fn move_range(&mut self, _from: usize, _to: usize, _count: usize) -> Result<(), Failed> {
        Ok(())
    }

    fn set(&mut self, _name: Word, _value: Value) -> Result<(), Failed> {
        Ok(())
    }

    fn clear(&mut self) -> Result<(), Failed> {
        Ok(())
    }
}
