// Names with the numbers that they were given.
ghost use Rattle.std.specs.Prelude.{◌≡◌, [], List, ℕ, Some, IsSome, OnOk, OnErr, if◌then◌else◌};
ghost use Rattle.std.specs.Str.{bytes_eq};
ghost use Rattle.lang_script.specs.SnapshotNames.{NamedNumber, snapshot_number};
ghost use Rattle.lang_script.specs.NamesInMemory.{number_in, Holds};

use lang_ast::SnapshotRef;
use rt_values::{Name, NoMemory};
use std::alloc::Global;
use std::collections::HashMap;

/// The snapshot number for a name whose take was refused. No snapshot has it.
pub const NEVER_TAKEN: Name = 18446744073709551615;

/// A table from names to numbers: that of the latest snapshot that a script took under a name. A rule of this
/// project.
#[derive(Drop)]
pub struct NameTable {
    numbers: HashMap<Vec<u8>, u64>,
}

impl NameTable {
    /// Creates the table without names.
    pub fn new(alloc: Global) -> Self
        ensures { Holds result [] }
    {
        NameTable {
            numbers: HashMap::new(alloc),
        }
    }

    /// Returns the number of `name`, or `None` if it has none.
    pub fn get(&self, name: &[u8]) -> Option<u64>
        ensures { result ≡ number_in self.now name.now }
    {
        self.numbers.get(name).copied()
    }

    /// Gives `name` a number, in place of an earlier one. Takes no memory if `name` has a number.
    pub fn put(&mut self, alloc: Global, name: &[u8], number: u64) -> Result<(), NoMemory>
        ensures put { OnOk result ((other : List ℕ) → number_in self.new other ≡
            (if bytes_eq name.now other then Some number else number_in self.old other)) }
        ensures free { IsSome (number_in self.old name.now) → OnErr result ⊥ }
    {
        match self.numbers.get_mut(name) {
            Some(kept) => {
                *kept = number;
                Ok(())
            }
            None => {
                let key = name.to_vec(alloc)?;
                self.numbers.insert(key, number)?;
                Ok(())
            }
        }
    }

    /// Returns the number of the snapshot that a step is about: 0 for the global one, and `NEVER_TAKEN` for a name
    /// whose take was refused.
    pub fn number_of(&self, snapshot: &SnapshotRef) -> Name
        ensures { (names : List NamedNumber) → Holds self.now names → result ≡ snapshot_number names snapshot.now }
    {
        match snapshot {
            SnapshotRef::Global => 0,
            SnapshotRef::Named(name) => self.get(name.text.bytes()).unwrap_or(NEVER_TAKEN),
        }
    }
}
