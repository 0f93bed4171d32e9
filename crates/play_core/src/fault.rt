// Faults of an input, and the line of each.
ghost use Rattle.std.specs.Prelude.{◌≡◌, ◌++◌, [], OnOk, OnErr};
ghost use Rattle.play_core.specs.Faults.{fault_word, fault_line};

use itoa::Buffer;
use rt_values::NoMemory;

/// The kind of a fault.
#[derive(Clone, Copy, Debug, PartialEq, Eq)]
pub enum FaultKind {
    /// The input is not UTF-8.
    Utf8,
    /// The bytes are not a sequence of atoms, strings and lists.
    Text,
    /// A list is nested more than 100 deep.
    Deep,
    /// A top form is not a form of the language, or is out of order.
    Form,
    /// Something is too long, too many or too deep.
    Limit,
    /// A name is defined twice.
    Double,
    /// A name is not defined.
    Unknown,
    /// A call names a later function, or a chain of calls is too long.
    Order,
    /// A value has the wrong type, or a state a policy of another type.
    Type,
    /// A remembered value depends on something other than its keys.
    Remember,
    /// With threads: an actor uses a name of another actor, or two actors have frames.
    Actor,
}

/// Why an input is rejected, with the offset in bytes.
///
/// A rule of this project. The first stage or pass that finds a fault reports the fault with the least offset.
#[derive(Clone, Copy, Debug, PartialEq, Eq)]
pub struct Fault {
    pub kind: FaultKind,
    pub at: usize,
}

impl FaultKind {
    // Returns the word for the kind.
    fn word(self) -> &'static [u8]
        ensures { result.now ≡ fault_word self }
    {
        match self {
            FaultKind::Utf8 => b"utf8",
            FaultKind::Text => b"text",
            FaultKind::Deep => b"deep",
            FaultKind::Form => b"form",
            FaultKind::Limit => b"limit",
            FaultKind::Double => b"double",
            FaultKind::Unknown => b"unknown",
            FaultKind::Order => b"order",
            FaultKind::Type => b"type",
            FaultKind::Remember => b"remember",
            FaultKind::Actor => b"actor",
        }
    }
}

impl Fault {
    // Appends the line.
    fn append(self, text: &mut Vec<u8>) -> Result<(), NoMemory>
        ensures { OnOk result (text.new.items ≡ text.old.items ++ fault_line self) }
    {
        let mut digits = Buffer::new();
        text.extend_from_slice(b"bad input: ")?;
        text.extend_from_slice(self.kind.word())?;
        text.extend_from_slice(b" at ")?;
        text.extend_from_slice(digits.format(self.at).as_bytes())?;
        text.push(b'\n')?;
        Ok(())
    }

    /// Appends the one line that reports the fault. If the process is out of memory, `text` is empty afterwards.
    pub fn put(self, text: &mut Vec<u8>) -> Result<(), NoMemory>
        ensures ok { OnOk result (text.new.items ≡ text.old.items ++ fault_line self) }
        ensures err { OnErr result (text.new.items ≡ []) }
    {
        let done = self.append(text);
        if done.is_err() {
            text.clear();
        }
        done
    }
}
