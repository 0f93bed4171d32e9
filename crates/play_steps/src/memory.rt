// What an actor keeps between its calls.
ghost use Rattle.std.specs.Prelude.{◌≡◌, IfOk, OnOk};
ghost use Rattle.lang_script.specs.StepCalls.{Notes, no_notes, request_of, notes_after, number_taken, value_read, frame_begun, sum_request};
ghost use Rattle.play_steps.specs.ActorNotes.{IsNoted, part_of};

use crate::parts::StepPart;
use lang_checks::Checked;
use lang_script::{NEVER_TAKEN, NameTable};
use recomposer::Composition;
use rt_values::operators::add;
use rt_values::{Name, NoMemory, ObjectNo, Value, WatcherNo};
use snap_api::{Reply, Request};
use std::alloc::Global;

/// The number of the one watcher of frames.
pub const WATCHER: WatcherNo = 0;

/// The machine that makes the calls of an actor's steps from the replies. It writes nothing. It keeps the composition,
/// the numbers of its snapshot names, the value of the last read if it was not refused, and the snapshot of the open
/// frame.
#[derive(Drop)]
pub struct ActorMemory<'p> {
    pub composition: Composition<'p>,
    names: NameTable,
    value: Option<Value>,
    /// The snapshot of the open frame.
    pub frame: Option<Name>,
}

/// Returns the number of the snapshot that a take gave, or a number that no snapshot has. A rule of this project.
pub fn number_taken(reply: &Reply) -> Name
    ensures { result ≡ number_taken reply.now }
{
    match reply {
        Reply::Taken(name) => *name,
        _ => NEVER_TAKEN,
    }
}

// Returns the value that a read gave.
fn value_read(reply: Reply) -> Option<Value>
    ensures { result ≡ value_read reply }
{
    match reply {
        Reply::Got(value) => Some(value),
        _ => None,
    }
}

// Returns the write of a sum, if `value` is a number.
fn sum_request(name: Name, object: ObjectNo, amount: i64, value: &Option<Value>) -> Option<Request>
    ensures { result ≡ sum_request name object amount value.now }
{
    match value {
        Some(Value::Int(z)) => Some(Request::Write {
            name,
            object,
            value: Value::Int(add(*z, amount)),
        }),
        _ => None,
    }
}

// Returns the write of a copy of `value`.
fn write_request(
    alloc: Global,
    name: Name,
    object: ObjectNo,
    value: &Value,
) -> Result<Option<Request>, NoMemory>
    ensures { IfOk result (λ o. o ≡ Some (Request.Write name object value.now)) }
{
    match value.copy(alloc) {
        Ok(value) => Ok(Some(Request::Write {
            name,
            object,
            value,
        })),
        Err(_) => Err(NoMemory),
    }
}

impl<'p> ActorMemory<'p> {
    /// Creates the memory of an actor before its first step.
    pub fn new(alloc: Global, program: &'p Checked) -> Result<Self, NoMemory>
        ensures { IfOk result (λ m. IsNoted m no_notes) }
    {
        let composition = Composition::new(alloc, program, WATCHER)?;
        Ok(ActorMemory {
            composition,
            names: NameTable::new(alloc),
            value: None,
            frame: None,
        })
    }

    /// Returns the call that a part makes, if it makes one. Out of memory only for the value of a write.
    pub fn request_for(
        &self,
        alloc: Global,
        part: &StepPart<'_>,
    ) -> Result<Option<Request>, NoMemory>
        ensures { (n : Notes) → IsNoted self.now n → IfOk result (λ o. o ≡ request_of n (part_of part.now)) }
    {
        match part {
            StepPart::Take { kind, parent, .. } => Ok(Some(Request::Take {
                parent: self.names.number_of(parent),
                kind: *kind,
            })),
            StepPart::Read { snapshot, object } => Ok(Some(Request::Read {
                name: self.names.number_of(snapshot),
                object: *object,
            })),
            StepPart::Write {
                snapshot,
                object,
                value,
            } => write_request(alloc, self.names.number_of(snapshot), *object, value),
            StepPart::WriteSum {
                snapshot,
                object,
                amount,
            } => {
                let name = self.names.number_of(snapshot);
                Ok(sum_request(name, *object, *amount, &self.value))
            }
            StepPart::Apply { snapshot } => Ok(Some(Request::Apply {
                name: self.names.number_of(snapshot),
            })),
            StepPart::Dispose { snapshot } => Ok(Some(Request::Dispose {
                name: self.names.number_of(snapshot),
            })),
            StepPart::BeginFrame => Ok(Some(Request::TakeFor { watcher: WATCHER })),
            StepPart::EndFrame => match self.frame {
                Some(name) => Ok(Some(Request::Dispose { name })),
                None => Ok(None),
            },
        }
    }

    // Notes the snapshot of a frame, and marks what changed since the last frame as owed.
    fn note_frame(&mut self, reply: Reply)
        ensures frame { self.new.frame ≡ frame_begun reply }
        ensures names { self.new.names ≡ self.old.names }
        ensures value { self.new.value ≡ self.old.value }
    {
        match reply {
            Reply::TakenFor(name, changed) => {
                self.composition.note(changed.numbers());
                self.frame = Some(name);
            }
            _ => self.frame = None,
        }
    }

    /// Notes the reply to the call of a part. Out of memory only for the take of a new name. The actor must make no
    /// further part then, since the numbers of its names are not known.
    pub fn note(&mut self, alloc: Global, part: &StepPart<'_>, reply: Reply) -> Result<(), NoMemory>
        ensures { (n : Notes) → IsNoted self.old n →
            OnOk result (IsNoted self.new (notes_after n (part_of part.now) reply)) }
    {
        match part {
            StepPart::Take { name, .. } => {
                self.names.put(alloc, name.bytes(), number_taken(&reply))
            }
            StepPart::Read { .. } => {
                self.value = value_read(reply);
                Ok(())
            }
            StepPart::BeginFrame => {
                self.note_frame(reply);
                Ok(())
            }
            StepPart::EndFrame => {
                self.frame = None;
                Ok(())
            }
            _ => Ok(()),
        }
    }
}
