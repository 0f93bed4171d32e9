// Lists whose memory composing uses again.
ghost use Rattle.std.specs.Prelude.{◌≡◌, [], IfOk};
ghost use Rattle.rt_groups.specs.declared.groups.GroupKind.TheVariants as kinds;

use lang_eval::Env;
use rt_groups::{Attributes, Deps, Values};
use rt_values::{NoMemory, Word};
use slot_table::{ChangeListWriter, ReplacedGroups, SharedGroup, Table};
use std::alloc::Global;

/// Lists that are not in use, whose memory the next list of the same kind takes: the variables of a call or the keys
/// of a cell, the reads and the arguments of a call, and the attributes of a node.
#[derive(Drop)]
pub struct Spares {
    scopes: Vec<Env>,
    reads: Vec<Deps>,
    values: Vec<Values>,
    attributes: Vec<Attributes>,
    // What earlier frames replaced: its memory serves new nodes, and the writer of the frame.
    replaced: ReplacedGroups,
}

impl Spares {
    /// Returns no lists. New nodes and the writer of the frame take memory of `replaced`.
    pub(crate) fn new(alloc: Global, replaced: ReplacedGroups) -> Self {
        Spares {
            scopes: Vec::new(alloc),
            reads: Vec::new(alloc),
            values: Vec::new(alloc),
            attributes: Vec::new(alloc),
            replaced,
        }
    }

    /// Returns what is left of the memory of earlier frames. Drops the lists.
    pub(crate) fn into_replaced(self) -> ReplacedGroups {
        self.replaced
    }

    /// Returns a scope without variables.
    #[inline(always)]
    pub(crate) fn take_scope(&mut self, alloc: Global) -> Env
        ensures { result ≡ [] }
    {
        match self.scopes.pop() {
            Some(mut scope) => {
                scope.clear();
                scope
            }
            None => Env::new(alloc),
        }
    }

    /// Keeps the memory of `scope` for later, or drops it if there is no memory for one more list.
    #[inline(always)]
    pub(crate) fn keep_scope(&mut self, scope: Env) {
        keep(&mut self.scopes, scope);
    }

    /// Returns no reads.
    #[inline(always)]
    pub(crate) fn take_reads(&mut self, alloc: Global) -> Deps
        ensures { result ≡ [] }
    {
        match self.reads.pop() {
            Some(mut reads) => {
                reads.clear();
                reads
            }
            None => Deps::new(alloc),
        }
    }

    /// Keeps the memory of `reads` for later, or drops it if there is no memory for one more list.
    #[inline(always)]
    pub(crate) fn keep_reads(&mut self, reads: Deps) {
        keep(&mut self.reads, reads);
    }

    /// Returns the empty list of values. A new one has capacity for `count` values.
    #[inline(always)]
    pub(crate) fn take_values(&mut self, alloc: Global, count: usize) -> Result<Values, NoMemory>
        ensures { IfOk result (λ all. all ≡ []) }
    {
        match self.values.pop() {
            Some(mut values) => {
                values.clear();
                Ok(values)
            }
            None => Values::with_room(alloc, count),
        }
    }

    /// Keeps the memory of `values` for later, or drops it if there is no memory for one more list.
    #[inline(always)]
    pub(crate) fn keep_values(&mut self, values: Values) {
        keep(&mut self.values, values);
    }

    /// Returns the empty list of attributes. A new one has capacity for `count` attributes.
    #[inline(always)]
    pub(crate) fn take_attributes(
        &mut self,
        alloc: Global,
        count: usize,
    ) -> Result<Attributes, NoMemory>
        ensures { IfOk result (λ all. all ≡ []) }
    {
        match self.attributes.pop() {
            Some(mut attributes) => {
                attributes.clear();
                Ok(attributes)
            }
            None => self.replaced.take_attributes(alloc, count),
        }
    }

    /// Returns a writer without groups, which changes `table`.
    pub(crate) fn change_list_writer<'t>(
        &mut self,
        alloc: Global,
        table: &'t Table,
    ) -> ChangeListWriter<'t>
        ensures { result ≡ record { olds = table.now.groups; news = [] } }
    {
        ChangeListWriter::with_memory_of(alloc, table, &mut self.replaced)
    }

    /// Returns a node without reads, which has no place yet.
    #[inline(always)]
    pub(crate) fn new_node(
        &mut self,
        alloc: Global,
        kind: Word,
        attributes: Attributes,
    ) -> Result<SharedGroup, NoMemory>
        ensures kind { IfOk result (λ g. g.what ≡ kinds.Node kind attributes) }
        ensures reads { IfOk result (λ g. g.reads ≡ []) }
    {
        SharedGroup::new_node(alloc, kind, attributes, &mut self.replaced)
    }

    /// Keeps the memory of `attributes` for later, or drops it if there is no memory for one more list.
    #[inline(always)]
    pub(crate) fn keep_attributes(&mut self, attributes: Attributes) {
        keep(&mut self.attributes, attributes);
    }
}

// Appends a list, or drops it if there is no memory for one more. Mostly there is spare capacity, which takes no call.
#[inline(always)]
fn keep<T>(lists: &mut Vec<T>, list: T)
where
    T: Drop,
{
    if lists.len() < lists.capacity() {
        lists.push_reserved(list);
    } else {
        let _ = lists.push(list);
    }
}
