// The variables in scope, with their types.
ghost use Rattle.std.specs.Prelude.{◌≡◌, [], ◌∷◌, ◌++◌, length, take, IfOk, OnOk, OnErr};
ghost use Rattle.lang_checks.specs.Scopes.{typed_name, bound_type};

use lang_ast::Ident;
use rt_values::{NoMemory, Ty, Word};
use std::alloc::Global;
use std::marker::Model;

/// A name, and the type of its value.
#[derive(Drop)]
pub struct TypedName {
    pub name: Word,
    pub ty: Ty,
}

/// Names with the types of their values, the latest last.
#[derive(Drop)]
pub struct TypeEnv {
    items: Vec<TypedName>,
}

impl Model for TypeEnv {
    ghost use Rattle.std.specs.Prelude.{List};
    ghost use Rattle.lang_checks.specs.declared.environment.TypedName.{TypedName as bound_data};

    ghost Value = { List bound_data };

    ghost view = { λ e. e.items.items };
}

impl TypeEnv {
    /// Creates an empty environment. Takes no memory.
    pub fn new(alloc: Global) -> Self
        ensures { result ≡ [] }
    {
        TypeEnv {
            items: Vec::new(alloc),
        }
    }

    /// Appends a name with its type. After `NoMemory` the environment is unchanged.
    pub fn push(&mut self, name: &Ident, ty: Ty) -> Result<(), NoMemory>
        ensures ok { OnOk result (self.new ≡ self.old ++ typed_name name.now ty ∷ []) }
        ensures err { OnErr result (self.new ≡ self.old) }
    {
        self.items.push(TypedName {
            name: name.text.copy()?,
            ty,
        })?;
        Ok(())
    }

    /// Returns the number of names.
    pub fn len(&self) -> usize
        ensures { result ≡ length self.now }
    {
        self.items.len()
    }

    /// Keeps the first `len` names, or all if there are fewer.
    pub fn truncate(&mut self, len: usize)
        ensures { self.new ≡ take len self.old }
    {
        self.items.truncate(len);
    }

    /// Returns the type of a name.
    pub fn find(&self, name: &Ident) -> Option<Ty>
        ensures { result ≡ bound_type name.now.text self.now }
    {
        let mut rest = self.items.as_slice();
        while let Some((typed_name, more)) = rest.split_first() {
            if typed_name.name.is(name.text.bytes()) {
                return Some(typed_name.ty);
            }
            rest = more;
        }
        None
    }
}
