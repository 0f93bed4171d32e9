// The variables in scope.
ghost use Rattle.std.specs.Prelude.{◌≡◌, ◌++◌, ◌∷◌, [], List, true, IfOk, OnOk, OnErr, map};
ghost use Rattle.rt_values.specs.Values.{is_flat, same_values};
ghost use Rattle.lang_ast.specs.Evaluation.{new_binding, lookup};
ghost use Rattle.lang_ast.specs.declared.binding.Binding.{Binding};

use lang_ast::Binding;
use rt_groups::Values;
use rt_values::{NoMemory, Value, Word};
use std::alloc::Global;
use std::marker::Model;

/// The variables in scope with their values, the latest last: the parameters of a composable, and the variables of
/// the enclosing statements. A later variable hides an earlier one of the same name, as in Kotlin.
#[derive(Drop)]
pub struct Env {
    bindings: Vec<Binding>,
}

impl Model for Env {
    ghost use Rattle.std.specs.Prelude.{List};
    ghost use Rattle.lang_ast.specs.declared.binding.Binding.{Binding};

    ghost Value = { List Binding };

    ghost view = { λ s. s.bindings.items };
}

impl Env {
    /// Returns the scope without variables.
    pub fn new(alloc: Global) -> Self
        ensures { result ≡ [] }
    {
        Env {
            bindings: Vec::new(alloc),
        }
    }

    /// Appends a variable. After `NoMemory` the scope is unchanged.
    #[inline(always)]
    pub fn push(&mut self, name: Word, value: Value) -> Result<(), NoMemory>
        ensures ok { OnOk result (self.new ≡ self.old ++ new_binding name value ∷ []) }
        ensures err { OnErr result (self.new ≡ self.old) }
    {
        if self.bindings.len() == self.bindings.capacity() {
            self.bindings.reserve(1)?;
        }
        self.bindings.push_reserved(Binding { name, value });
        Ok(())
    }

    /// Removes all variables and keeps the capacity.
    #[inline(always)]
    pub fn clear(&mut self)
        ensures { self.new ≡ [] }
    {
        self.bindings.clear();
    }

    /// Removes the latest variable, if there is one. An empty scope stays empty.
    #[inline(always)]
    pub fn pop(&mut self)
        ensures last { (bindings : List Binding) (b : Binding) → self.old ≡ bindings ++ b ∷ [] → self.new ≡ bindings }
        ensures none { self.old ≡ [] → self.new ≡ [] }
    {
        let _ = self.bindings.pop();
    }

    /// Returns a copy of the value of the latest variable with this name, or the number 0 if there is none. Copying a
    /// number or a truth value takes no memory.
    #[inline(always)]
    #[tactic(auto, using(crate::proofs::Lookups::lookup_last))]
    pub fn value_of(&self, alloc: Global, name: &Word) -> Result<Value, NoMemory>
        ensures value { IfOk result (λ v. v ≡ lookup self.now name.now) }
        ensures free { is_flat (lookup self.now name.now) ≡ true → OnErr result ⊥ }
    {
        let letters = name.bytes();
        let mut rest = self.bindings.as_slice();
        while let Some((binding, before)) = rest.split_last() {
            if binding.name.is(letters) {
                return Ok(binding.value.copy(alloc)?);
            }
            rest = before;
        }
        Ok(Value::Int(0))
    }

    /// Returns whether the values of the variables, in order, equal `values`: the test of the keys of a cell
    /// (`changed`).
    pub fn has_values(&self, values: &[Value]) -> bool
        ensures { result ≡ same_values values.now (map (λ b. b.value) self.now) }
    {
        let mut rest = self.bindings.as_slice();
        for value in values {
            let Some((binding, more)) = rest.split_first() else {
                return false;
            };
            if !value.same(&binding.value) {
                return false;
            }
            rest = more;
        }
        rest.is_empty()
    }

    /// Returns the values of the variables, in order, and discards their names.
    pub fn into_values(self, alloc: Global) -> Result<Values, NoMemory>
        ensures { IfOk result (λ vs. vs ≡ map (λ b. b.value) self) }
    {
        let mut values = Values::new(alloc);
        for binding in self.bindings {
            values.push(binding.value)?;
        }
        Ok(values)
    }
}
