// Writes atoms, lists, literals and expressions as trees, all at offset 0.
ghost use Rattle.std.specs.Prelude.{◌≡◌, ℕ, ℤ, List, Option, None, IfOk, OnOk};
ghost use Rattle.std.specs.Fmt.{signed_decimal};
ghost use Rattle.sexp_text.specs.Forest.{Forest, empty, atom, text, list, joined_trees};
ghost use Rattle.sexp_text.specs.View.{tree_view, forest_view};
ghost use Rattle.lang_ast.specs.SyntaxView.{expr_view, exprs_view, nameds_view};
ghost use Rattle.lang_forms.specs.Words.{policy_word, operator_word};
ghost use Rattle.lang_forms.specs.Sketch.{Sketch, group, unplaced_sketch};
ghost use Rattle.lang_forms.specs.Forms.{name, numbers, literal, expr_forms, exprs_forms, pairs_forms};

use lang_ast::{Expression, Ident, Named, Operator};
use rt_values::{NoMemory, Value, Word};
use sexp_text::Tree;
use snap_policy::BuiltIn;
use std::alloc::Global;

// Appends a tree.
#[tactic(auto, using(crate::proofs::Written::written))]
fn put(tree: Tree, out: &mut Vec<Tree>) -> Result<(), NoMemory>
    ensures { OnOk result (forest_view out.new.items
        ≡ joined_trees (forest_view out.old.items) (tree_view tree)) }
{
    out.push(tree)?;
    Ok(())
}

// Appends an atom.
#[tactic(auto, using(crate::proofs::Written::written))]
pub fn put_word(alloc: Global, word: &[u8], out: &mut Vec<Tree>) -> Result<(), NoMemory>
    ensures { OnOk result (forest_view out.new.items
        ≡ joined_trees (forest_view out.old.items) (atom 0 word.now empty)) }
{
    put(Tree::Atom(0, Word::of(alloc, word)?), out)
}

// Appends a number in its decimals.
pub fn put_number(alloc: Global, number: i64, out: &mut Vec<Tree>) -> Result<(), NoMemory>
    ensures { OnOk result (forest_view out.new.items
        ≡ joined_trees (forest_view out.old.items) (atom 0 (signed_decimal number) empty)) }
{
    let decimals = number.to_string(alloc)?;
    put_word(alloc, decimals.as_bytes(), out)
}

// Appends a string.
#[tactic(auto, using(crate::proofs::Written::written))]
fn put_string(alloc: Global, chars: &[u8], out: &mut Vec<Tree>) -> Result<(), NoMemory>
    ensures { OnOk result (forest_view out.new.items
        ≡ joined_trees (forest_view out.old.items) (text 0 chars.now empty)) }
{
    let bytes = chars.to_vec(alloc)?;
    put(Tree::Text(0, bytes), out)
}

// Appends a list of the trees `inner`.
#[tactic(auto, using(crate::proofs::Written::written))]
pub fn put_list(inner: Vec<Tree>, out: &mut Vec<Tree>) -> Result<(), NoMemory>
    ensures { OnOk result (forest_view out.new.items
        ≡ joined_trees (forest_view out.old.items) (list 0 (forest_view inner.items) empty)) }
{
    put(Tree::List(0, inner), out)
}

// Creates the trees of a list that begins with `word`.
pub fn list_with_word(alloc: Global, word: &[u8]) -> Result<Vec<Tree>, NoMemory>
    ensures { IfOk result (λ v. forest_view v.items ≡ atom 0 word.now empty) }
{
    let mut inner = Vec::new(alloc);
    put_word(alloc, word, &mut inner)?;
    Ok(inner)
}

// Returns the keyword of a policy.
pub fn word_of_policy(policy: BuiltIn) -> &'static [u8]
    ensures { result.now ≡ policy_word policy }
{
    match policy {
        BuiltIn::Structural => b"Structural",
        BuiltIn::Never => b"Never",
        BuiltIn::Counter => b"Counter",
        BuiltIn::Largest => b"Largest",
        BuiltIn::Append => b"Append",
    }
}

// Returns the keyword of an operator.
fn word_of_operator(operator: Operator) -> &'static [u8]
    ensures { result.now ≡ operator_word operator }
{
    match operator {
        Operator::Add => b"+",
        Operator::Subtract => b"-",
        Operator::Multiply => b"*",
        Operator::Divide => b"/",
        Operator::Remainder => b"%",
        Operator::Equal => b"=",
        Operator::Less => b"<",
        Operator::Not => b"not",
        Operator::And => b"and",
        Operator::Or => b"or",
        Operator::Pick => b"pick",
        Operator::Join => b"join",
        Operator::Text => b"text",
        Operator::Ints => b"ints",
        Operator::Range => b"range",
        Operator::Push => b"push",
        Operator::Concat => b"concat",
        Operator::Length => b"len",
        Operator::At => b"at",
    }
}

// Appends numbers.
#[tactic(auto, using(crate::proofs::Written::written))]
fn put_numbers(alloc: Global, items: &[i64], out: &mut Vec<Tree>) -> Result<(), NoMemory>
    ensures { OnOk result (forest_view out.new.items
        ≡ joined_trees (forest_view out.old.items) (unplaced_sketch (numbers items.now))) }
{
    let mut rest = items;
    while let Some((item, more)) = rest.split_first() {
        put_number(alloc, *item, out)?;
        rest = more;
    }
    Ok(())
}

// Appends a literal.
#[tactic(auto, using(crate::proofs::Written::written))]
pub fn put_literal(alloc: Global, value: &Value, out: &mut Vec<Tree>) -> Result<(), NoMemory>
    ensures { OnOk result ((p : Option ℕ) → (g : Sketch) →
        joined_trees (forest_view out.new.items) (unplaced_sketch g)
        ≡ joined_trees (forest_view out.old.items) (unplaced_sketch (literal p value.now g))) }
{
    match value {
        Value::Int(number) => Ok(put_number(alloc, *number, out)?),
        Value::Bool(truth) => {
            if *truth {
                Ok(put_word(alloc, b"true", out)?)
            } else {
                Ok(put_word(alloc, b"false", out)?)
            }
        }
        Value::Text(chars) => Ok(put_string(alloc, chars.bytes(), out)?),
        Value::Ints(items) => {
            let mut inner = list_with_word(alloc, b"ints")?;
            put_numbers(alloc, items.items(), &mut inner)?;
            Ok(put_list(inner, out)?)
        }
    }
}

// Appends an expression.
#[tactic(auto, using(lang_ast::proofs::Views::views, crate::proofs::Written::written))]
#[cycle(expressions)]
pub fn put_expr(alloc: Global, expr: &Expression, out: &mut Vec<Tree>) -> Result<(), NoMemory>
    ensures { OnOk result ((g : Sketch) →
        joined_trees (forest_view out.new.items) (unplaced_sketch g)
        ≡ joined_trees (forest_view out.old.items) (unplaced_sketch (expr_forms (expr_view expr.now) g))) }
{
    match expr {
        Expression::Literal { value, .. } => Ok(put_literal(alloc, value, out)?),
        Expression::Variable { name } => Ok(put_word(alloc, name.text.bytes(), out)?),
        Expression::Get { name, .. } => {
            let mut inner = list_with_word(alloc, b"get")?;
            put_word(alloc, name.text.bytes(), &mut inner)?;
            Ok(put_list(inner, out)?)
        }
        Expression::Apply {
            operator,
            operands,
            ..
        } => {
            let mut inner = list_with_word(alloc, word_of_operator(*operator))?;
            put_exprs(alloc, operands, &mut inner)?;
            Ok(put_list(inner, out)?)
        }
    }
}

// Appends expressions.
#[tactic(auto, using(crate::proofs::Written::exprs_step))]
#[cycle(expressions)]
pub fn put_exprs(alloc: Global, exprs: &[Expression], out: &mut Vec<Tree>) -> Result<(), NoMemory>
    ensures { OnOk result (forest_view out.new.items
        ≡ joined_trees (forest_view out.old.items)
        (unplaced_sketch (exprs_forms (exprs_view exprs.now)))) }
{
    for expr in exprs {
        put_expr(alloc, expr, out)?;
    }
    Ok(())
}

// Appends a name and an expression.
#[tactic(auto, using(crate::proofs::Written::written))]
pub fn put_binding(
    alloc: Global,
    bound: &Ident,
    value: &Expression,
    out: &mut Vec<Tree>,
) -> Result<(), NoMemory>
    ensures { OnOk result ((g : Sketch) →
        joined_trees (forest_view out.new.items) (unplaced_sketch g)
        ≡ joined_trees (forest_view out.old.items)
        (unplaced_sketch (name bound.now (expr_forms (expr_view value.now) g)))) }
{
    put_word(alloc, bound.text.bytes(), out)?;
    put_expr(alloc, value, out)
}

// Appends names with expressions, each in its own list.
#[tactic(auto, using(crate::proofs::Written::written))]
fn put_pairs(alloc: Global, pairs: &[Named], out: &mut Vec<Tree>) -> Result<(), NoMemory>
    ensures { OnOk result (forest_view out.new.items
        ≡ joined_trees (forest_view out.old.items)
        (unplaced_sketch (pairs_forms (nameds_view pairs.now)))) }
{
    let mut rest = pairs;
    while let Some((pair, more)) = rest.split_first() {
        let mut inner = Vec::new(alloc);
        put_binding(alloc, &pair.name, &pair.value, &mut inner)?;
        put_list(inner, out)?;
        rest = more;
    }
    Ok(())
}

// Appends a name and a list of names with expressions.
#[tactic(auto, using(crate::proofs::Written::written))]
pub fn put_named(
    alloc: Global,
    bound: &Ident,
    pairs: &[Named],
    out: &mut Vec<Tree>,
) -> Result<(), NoMemory>
    ensures { OnOk result ((g : Sketch) →
        joined_trees (forest_view out.new.items) (unplaced_sketch g)
        ≡ joined_trees (forest_view out.old.items)
        (unplaced_sketch (name bound.now (group None (pairs_forms (nameds_view pairs.now)) g)))) }
{
    put_word(alloc, bound.text.bytes(), out)?;
    let mut inner = Vec::new(alloc);
    put_pairs(alloc, pairs, &mut inner)?;
    put_list(inner, out)
}
