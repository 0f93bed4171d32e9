// Laws of the written forms, each the contract of a function that does nothing.
ghost use Rattle.std.specs.Prelude.{◌≡◌, []};
ghost use Rattle.sexp_text.specs.Forest.{Forest, joined_trees, without_offsets};
ghost use Rattle.lang_forms.specs.Sources.{Source};
ghost use Rattle.lang_forms.specs.Forms.{HasForms, scripts_forms, text_forms};
ghost use Rattle.lang_forms.specs.Sketch.{unplaced_sketch};

/// The trees that `forms_of` returns for a program are those that it was parsed from, except for offsets and for the
/// script.
///
/// A rule of this project. The function does nothing: its contract is the law.
pub fn forms_are_those_read()
    ensures { (f : Forest) → (t : Source) → HasForms f t →
        without_offsets f ≡ unplaced_sketch (text_forms t) }
{}

/// The trees of a text are those that `forms_of` returns for its program, followed by those that `script_forms_of`
/// returns for its script.
///
/// A rule of this project. The function does nothing: its contract is the law.
pub fn script_follows_program()
    ensures { (t : Source) → unplaced_sketch (text_forms t)
        ≡ joined_trees (unplaced_sketch (text_forms (record { program = t.program; script = [] })))
        (unplaced_sketch (scripts_forms t.script)) }
{}
