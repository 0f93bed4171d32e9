// The value of an expression.
ghost use Rattle.std.specs.Prelude.{◌≡◌, ◌++◌, map, take, true, false, IfOk, OnOk, OnErr};
ghost use Rattle.rt_values.specs.Limits.{most_items};
ghost use Rattle.rt_values.specs.Operators.{number_of};
ghost use Rattle.rt_values.specs.Values.{is_flat};
ghost use Rattle.rt_values.specs.Maps.{Map};
ghost use Rattle.rt_values.specs.Views.{Grew};
ghost use Rattle.lang_ast.specs.Evaluation.{source_reading, eval, eval_all, eval_nth, first, second};
ghost use Rattle.lang_ast.specs.declared.syntax.Source.TheVariants as source_data;
ghost use Rattle.lang_ast.specs.SyntaxView.{expr_view, exprs_view};
ghost use Rattle.lang_ast.specs.ResultsWithReads.{mapped_reading};
ghost use Rattle.lang_eval.specs.Flatness.{is_flat_expr, are_flat, is_flat_nth};
ghost use Rattle.lang_eval.specs.Operands.{pair};
ghost use Rattle.lang_eval.specs.EvaluatesReading.{Evaluates};

use crate::applying::{Pair, apply, choose_operand, is_list, is_pick};
use crate::scope::Env;
use lang_ast::{Expression, Source};
use rt_values::{IntList, NoMemory, ObjectNo, Objects, Value, View};
use std::alloc::Global;

/// Returns the value of an expression in the map that the view shows, with the variables in `scope`. The view is
/// asked for each object that the expression reads (`Snapshot.readObservers`).
///
/// Expressions are total: an operand of another type, a missing operand or object and an unbound name count as 0,
/// false or nothing. After `NoMemory` the view was asked for a first part of the reads. An expression whose parts are
/// all numbers or truth values takes no memory, if the view's reads of such values take none.
pub fn eval<V: View>(
    alloc: Global,
    expression: &Expression,
    scope: &Env,
    view: &mut V,
) -> Result<Value, NoMemory>
    ensures keeps { V.keeps view.old view.new }
    ensures same { (m : Map) → V.shows view.old m → V.shows view.new m }
    ensures value { (m : Map) → V.shows view.old m →
        IfOk result (λ v. v ≡ (eval m (expr_view expression.now) scope.now).value) }
    ensures asks { (m : Map) → V.shows view.old m →
        OnOk result (V.asked view.new ≡
        V.asked view.old ++ (eval m (expr_view expression.now) scope.now).reads) }
    ensures part { (m : Map) → V.shows view.old m →
        OnErr result (Grew (V.asked view.old) (V.asked view.new)
        (eval m (expr_view expression.now) scope.now).reads) }
    ensures free { (m : Map) → V.shows view.old m → V.reads_free view.old →
        is_flat_expr m (expr_view expression.now) scope.now ≡ true → OnErr result ⊥ }
{
    let mut reads = Objects::new(alloc);
    eval_part(alloc, expression, scope, view, &mut reads, false)
}

/// Evaluates an expression as `eval` does, and appends its reads to `reads`, the reads of the call that evaluates it
/// (the current recompose scope). After `NoMemory` the list of reads has no meaning.
#[inline(always)]
pub fn eval_noting<V: View>(
    alloc: Global,
    expression: &Expression,
    scope: &Env,
    view: &mut V,
    reads: &mut Objects,
) -> Result<Value, NoMemory>
    ensures keeps { V.keeps view.old view.new }
    ensures same { (m : Map) → V.shows view.old m → V.shows view.new m }
    ensures value { (m : Map) → V.shows view.old m →
        IfOk result (λ v. v ≡ (eval m (expr_view expression.now) scope.now).value) }
    ensures asks { (m : Map) → V.shows view.old m →
        OnOk result (V.asked view.new ≡
        V.asked view.old ++ (eval m (expr_view expression.now) scope.now).reads) }
    ensures reads { (m : Map) → V.shows view.old m →
        OnOk result (reads.new ≡ reads.old ++ (eval m (expr_view expression.now) scope.now).reads) }
    ensures part { (m : Map) → V.shows view.old m →
        OnErr result (Grew (V.asked view.old) (V.asked view.new)
        (eval m (expr_view expression.now) scope.now).reads) }
{
    eval_inlined(alloc, expression, scope, view, reads, true)
}

// Returns the object that a name stands for.
fn object_of(source: Source) -> ObjectNo
    ensures { source ≡ source_data.State result }
{
    let Source::State(number) = source;
    number
}

// Reads what a name stands for. Appends the read to `reads` if `is_noting` is true.
fn read_source<V: View>(
    alloc: Global,
    source: Source,
    view: &mut V,
    reads: &mut Objects,
    is_noting: bool,
) -> Result<Value, NoMemory>
    ensures { Evaluates V.shows V.asked V.keeps V.reads_free is_noting
        (λ m. source_reading m source)
        (λ m. is_flat (source_reading m source).value)
        view.old view.new reads.old reads.new result }
{
    let number = object_of(source);
    let value = view.read(alloc, number)?;
    if is_noting {
        reads.push(number)?;
    }
    Ok(value)
}

// Evaluates an expression. Appends its reads to `reads` if `is_noting` is true.
#[cycle(evaluate)]
fn eval_part<V: View>(
    alloc: Global,
    expression: &Expression,
    scope: &Env,
    view: &mut V,
    reads: &mut Objects,
    is_noting: bool,
) -> Result<Value, NoMemory>
    ensures { Evaluates V.shows V.asked V.keeps V.reads_free is_noting
        (λ m. eval m (expr_view expression.now) scope.now)
        (λ m. is_flat_expr m (expr_view expression.now) scope.now)
        view.old view.new reads.old reads.new result }
{
    match expression {
        Expression::Literal { value, .. } => value.copy(alloc),
        Expression::Variable { name } => scope.value_of(alloc, &name.text),
        Expression::Get { source, .. } => read_source(alloc, *source, view, reads, is_noting),
        Expression::Apply {
            operator,
            operands,
            ..
        } => {
            if is_pick(*operator) {
                let condition = eval_operand(alloc, operands, 0, scope, view, reads, is_noting)?;
                eval_operand(
                    alloc,
                    operands,
                    choose_operand(&condition),
                    scope,
                    view,
                    reads,
                    is_noting,
                )
            } else if is_list(*operator) {
                let list = eval_numbers(alloc, operands, scope, view, reads, is_noting)?;
                Ok(Value::Ints(list))
            } else {
                let pair = eval_pair(alloc, operands, scope, view, reads, is_noting)?;
                apply(alloc, *operator, pair.first, pair.second)
            }
        }
    }
}

// Evaluates an expression as `eval_part` does. A literal or a variable takes no call.
#[inline(always)]
#[cycle(evaluate)]
fn eval_inlined<V: View>(
    alloc: Global,
    expression: &Expression,
    scope: &Env,
    view: &mut V,
    reads: &mut Objects,
    is_noting: bool,
) -> Result<Value, NoMemory>
    ensures { Evaluates V.shows V.asked V.keeps V.reads_free is_noting
        (λ m. eval m (expr_view expression.now) scope.now)
        (λ m. is_flat_expr m (expr_view expression.now) scope.now)
        view.old view.new reads.old reads.new result }
{
    match expression {
        Expression::Literal { value, .. } => value.copy(alloc),
        Expression::Variable { name } => scope.value_of(alloc, &name.text),
        _ => eval_part(alloc, expression, scope, view, reads, is_noting),
    }
}

// Returns the value of the operand at index `place`, or 0 if there is none. The other operands are not evaluated.
#[cycle(evaluate)]
fn eval_operand<V: View>(
    alloc: Global,
    operands: &[Expression],
    place: usize,
    scope: &Env,
    view: &mut V,
    reads: &mut Objects,
    is_noting: bool,
) -> Result<Value, NoMemory>
    ensures { Evaluates V.shows V.asked V.keeps V.reads_free is_noting
        (λ m. eval_nth m (exprs_view operands.now) place scope.now)
        (λ m. is_flat_nth m (exprs_view operands.now) place scope.now)
        view.old view.new reads.old reads.new result }
{
    match operands.get(place) {
        Some(expression) => eval_part(alloc, expression, scope, view, reads, is_noting),
        None => Ok(Value::Int(0)),
    }
}

// Evaluates all operands from left to right. Returns the first two values.
#[cycle(evaluate)]
fn eval_pair<V: View>(
    alloc: Global,
    operands: &[Expression],
    scope: &Env,
    view: &mut V,
    reads: &mut Objects,
    is_noting: bool,
) -> Result<Pair, NoMemory>
    ensures { Evaluates V.shows V.asked V.keeps V.reads_free is_noting
        (λ m. mapped_reading (λ vs. pair (first vs) (second vs)) (eval_all m (exprs_view operands.now) scope.now))
        (λ m. are_flat m (exprs_view operands.now) scope.now)
        view.old view.new reads.old reads.new result }
{
    let mut pair = Pair::none();
    for (place, expression) in operands.iter().enumerate() {
        pair = pair.with(
            place,
            eval_inlined(alloc, expression, scope, view, reads, is_noting)?,
        );
    }
    Ok(pair)
}

// Evaluates all operands from left to right. Returns their numbers, as many as a list can have.
#[cycle(evaluate)]
fn eval_numbers<V: View>(
    alloc: Global,
    operands: &[Expression],
    scope: &Env,
    view: &mut V,
    reads: &mut Objects,
    is_noting: bool,
) -> Result<IntList, NoMemory>
    ensures { Evaluates V.shows V.asked V.keeps V.reads_free is_noting (λ m.
        mapped_reading (λ vs. take most_items (map number_of vs)) (eval_all m (exprs_view operands.now) scope.now))
        (λ m. false) view.old view.new reads.old reads.new result }
{
    let mut list = IntList::new(alloc)?;
    for expression in operands {
        let value = eval_part(alloc, expression, scope, view, reads, is_noting)?;
        list.push(value.number())?;
    }
    Ok(list)
}
