// Readers of records.
ghost use Rattle.std.specs.Prelude.{◌≡◌, [], ◌∷◌, ◌++◌, OnOk, OnErr};

use rt_values::NoMemory;
use snap_ids::IdSet;
use std::alloc::Global;
use std::marker::Model;

/// A reader: a snapshot id, and the ids that are invalid for it.
#[derive(Drop)]
pub struct RecordReader {
    pub id: u64,
    pub invalid: IdSet,
}

/// A list of readers.
#[derive(Drop)]
pub struct Readers {
    readers: Vec<RecordReader>,
}

impl Model for Readers {
    ghost use Rattle.std.specs.Prelude.{List};
    ghost use Rattle.snap_reuse.specs.declared.readers.RecordReader.{RecordReader as Datum};

    ghost Value = { List Datum };

    ghost view = { λ r. r.readers.items };
}

impl Readers {
    /// Returns the empty list.
    pub fn new(alloc: Global) -> Self
        ensures { result ≡ [] }
    {
        Readers {
            readers: Vec::new(alloc),
        }
    }

    /// Returns the readers, in order.
    pub fn items(&self) -> &[RecordReader]
        ensures { result.now ≡ self.now }
    {
        &self.readers
    }

    /// Appends a reader. After `NoMemory` the list is unchanged.
    pub fn push(&mut self, reader: RecordReader) -> Result<(), NoMemory>
        ensures ok { OnOk result (self.new ≡ self.old ++ reader ∷ []) }
        ensures err { OnErr result (self.new ≡ self.old) }
    {
        self.readers.push(reader)?;
        Ok(())
    }
}
