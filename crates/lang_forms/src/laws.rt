// Laws of the forms, each the contract of a function that does nothing.
ghost use Rattle.std.specs.Prelude.{◌≡◌, ℕ, Result};
ghost use Rattle.sexp_text.specs.Forest.{Forest};
ghost use Rattle.lang_forms.specs.Sources.{Source};
ghost use Rattle.lang_forms.specs.Forms.{HasForms, HasUnlimitedForms};
ghost use Rattle.lang_limits.specs.Clamped.{clamped_trees};
ghost use Rattle.lang_forms.specs.FirstWrong.{IsAnswerFor};
ghost use Rattle.lang_forms.specs.declared.stop.FormStop.{FormStop};

/// Trees have the forms of at most one program and script.
///
/// A rule of this project. The function does nothing: its contract is the law.
pub fn forms_of_one_text()
    ensures { (f : Forest) → (t : Source) → (u : Source) → HasForms f t → HasForms f u → t ≡ u }
{}

/// Clamping all tokens of a source text to their limits changes only literals.
///
/// Clamped trees have the forms of a text exactly if the trees themselves have them without the limits of literals. A
/// rule of this project. The function does nothing: its contract is the law.
pub fn limits_keep_the_forms()
    ensures unlimited { (f : Forest) → (t : Source) → HasForms (clamped_trees f) t →
        HasUnlimitedForms f t }
    ensures clamped { (f : Forest) → (t : Source) → HasUnlimitedForms f t → HasForms (clamped_trees f) t }
{}

/// The forms of trees define one answer: their text, or the offset where they are refused.
///
/// A rule of this project. The function does nothing: its contract is the law.
pub fn forms_have_one_answer()
    ensures some { (end : ℕ) → (f : Forest) → (a : Result Source FormStop) × IsAnswerFor end f a }
    ensures one { (end : ℕ) → (f : Forest) → (a : Result Source FormStop) →
        (b : Result Source FormStop) → IsAnswerFor end f a → IsAnswerFor end f b → a ≡ b }
{}
