// Duplicate names.
ghost use Rattle.std.specs.Prelude.{◌≡◌, [], map};
ghost use Rattle.lang_ast.specs.declared.syntax.Ident.{Ident as name_data};
ghost use Rattle.lang_checks.specs.FaultOrder.{least_fault_from};
ghost use Rattle.lang_checks.specs.Scopes.{is_listed, duplicate_faults};

use crate::faults::{CheckKind, ProgramFault, fault_unless};
use lang_ast::{Function, Ident, Named, Parameter, State};

/// A part of a program whose name is unique in its list.
pub trait HasName {
    // The name.
    ghost title: { Self → name_data };

    /// The name, with its own offset.
    fn name(&self) -> &Ident
        ensures { result.now ≡ title self.now };
}

impl HasName for State {
    ghost title = { λ s. s.name };

    fn name(&self) -> &Ident {
        &self.name
    }
}

impl HasName for Function {
    ghost title = { λ f. f.name };

    fn name(&self) -> &Ident {
        &self.name
    }
}

impl HasName for Parameter {
    ghost title = { λ p. p.name };

    fn name(&self) -> &Ident {
        &self.name
    }
}

impl HasName for Named {
    ghost title = { λ n. n.name };

    fn name(&self) -> &Ident {
        &self.name
    }
}

// Returns whether one of the parts has the name.
fn is_among<T: HasName>(parts: &[T], name: &[u8]) -> bool
    ensures { result ≡ is_listed name.now (map T.title parts.now) }
{
    let mut rest = parts;
    while let Some((part, more)) = rest.split_first() {
        if part.name().text.is(name) {
            return true;
        }
        rest = more;
    }
    false
}

/// Updates `least` with each name that an earlier part has.
#[tactic(auto, using(crate::proofs::Least::answers))]
pub fn duplicate_faults<T: HasName>(
    parts: &[T],
    least: Option<ProgramFault>,
) -> Option<ProgramFault>
    ensures { result ≡ least_fault_from least (duplicate_faults [] (map T.title parts.now)) }
{
    let mut least = least;
    for (i, part) in parts.iter().enumerate() {
        let name = part.name();
        least = fault_unless(
            !is_among(&parts[..i], name.text.bytes()),
            CheckKind::Double,
            name.at,
            least,
        );
    }
    least
}
