// Offsets of expressions in the source text.
ghost use Rattle.std.specs.Prelude.{◌≡◌};
ghost use Rattle.lang_ast.specs.SyntaxView.{expr_view};
ghost use Rattle.lang_ast.specs.Offsets.{expr_offset};

use crate::Expression;

#[tactic(auto, using(crate::proofs::Views::views))]
impl Expression {
    /// Returns the offset of the first byte in the source text. A fault of the whole expression is reported there.
    pub fn offset(&self) -> usize
        ensures { result ≡ expr_offset (expr_view self.now) }
    {
        match self {
            Expression::Literal { at, .. } => *at,
            Expression::Variable { name } => name.at,
            Expression::Get { at, .. } => *at,
            Expression::Apply { at, .. } => *at,
        }
    }
}
