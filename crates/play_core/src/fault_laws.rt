// Laws of the faults of an input, of its program and of what is written for it, each the contract of a function without
// a body.
ghost use Rattle.std.specs.Prelude.{◌≡◌, ◌⊎◌, ℕ, Bool, List, []};
ghost use Rattle.sexp_text.specs.Forest.{Forest};
ghost use Rattle.lang_limits.specs.Sizes.{program_limits};
ghost use Rattle.lang_forms.specs.Sources.{Source as source_data};
ghost use Rattle.lang_forms.specs.Forms.{HasForms};
ghost use Rattle.lang_checks.specs.Numbers.{IsNumberedProgram};
ghost use Rattle.play_core.specs.Texts.{IsText, IsNoText};
ghost use Rattle.play_core.specs.Faults.{IsFault};
ghost use Rattle.play_core.specs.ThreadsOutput.{OutputTellsItsHistory};
ghost use Rattle.play_core.specs.declared.fault.Fault.{Fault as fault_data};

/// Law: bytes have at most one fault.
pub fn bytes_have_one_fault()
    ensures { (threads : Bool) (bytes : List ℕ) (f g : fault_data) →
        IsFault threads bytes f → IsFault threads bytes g → f ≡ g }
{}

/// Law: bytes with a fault are not a source text.
pub fn faulty_bytes_are_no_text()
    ensures { (threads : Bool) (bytes : List ℕ) (fault : fault_data) →
        IsFault threads bytes fault → IsNoText threads bytes }
{}

/// Law: bytes are a source text or have a fault.
pub fn bytes_are_a_text_or_have_a_fault()
    ensures { (threads : Bool) (bytes : List ℕ) → ((t : source_data) × IsText threads bytes t)
        ⊎ ((fault : fault_data) × IsFault threads bytes fault) }
{}

/// Law: an output of `threads` tells its history: no other history of the input in which the actors take turns has the
/// same lines.
pub fn threads_output_tells_its_history()
    ensures { OutputTellsItsHistory }
{}

/// Law: a program within the limits whose forms a forest has is numbered, as the check of programs requires.
pub fn parsed_programs_are_numbered()
    ensures { (f g : Forest) (t : source_data) → HasForms f t → program_limits g t.program ≡ [] →
        IsNumberedProgram t.program }
{}
