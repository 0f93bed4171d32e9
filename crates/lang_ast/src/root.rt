// The index of the root function.
ghost use Rattle.std.specs.Prelude.{◌≡◌};
ghost use Rattle.lang_ast.specs.SyntaxView.{functions_view};
ghost use Rattle.lang_ast.specs.Programs.{root_number};

use crate::Function;

/// Returns the index of the first function with the name `root`, or the number of functions if there is none.
pub fn root_number(functions: &[Function]) -> usize
    ensures { result ≡ root_number (functions_view functions.now) }
{
    let mut number = 0;
    let mut rest = functions;
    while let Some((function, more)) = rest.split_first() {
        if function.name.text.is(b"root") {
            return number;
        }
        number += 1;
        rest = more;
    }
    number
}
