// Evaluation of lists of expressions: arguments, keys and attributes.
ghost use Rattle.std.specs.Prelude.{◌≡◌, ◌++◌, map, IfOk, OnOk, OnErr};
ghost use Rattle.rt_groups.specs.PreorderGroups.{flat_attribute};
ghost use Rattle.rt_values.specs.Maps.{Map};
ghost use Rattle.rt_values.specs.Views.{Grew};
ghost use Rattle.compose_model.specs.Composing.{attribute, bind};
ghost use Rattle.lang_ast.specs.Evaluation.{eval_all, eval_named};
ghost use Rattle.lang_ast.specs.SyntaxView.{exprs_view, nameds_view};

use crate::evaluation::eval_noting;
use crate::scope::Env;
use lang_ast::{Expression, Named, Parameter};
use rt_groups::{Attribute, Attributes, Values};
use rt_values::{NoMemory, Objects, View};
use std::alloc::Global;

/// Evaluates expressions from left to right, and appends their reads to `reads`. Uses `room` as a scratch buffer. After
/// `NoMemory` `reads` has no meaning.
pub fn evaluate_all<V: View>(
    alloc: Global,
    room: Values,
    expressions: &[Expression],
    scope: &Env,
    view: &mut V,
    reads: &mut Objects,
) -> Result<Values, NoMemory>
    ensures keeps { V.keeps view.old view.new }
    ensures same { (m : Map) → V.shows view.old m → V.shows view.new m }
    ensures value { (m : Map) → V.shows view.old m →
        IfOk result (λ vs. vs ≡ (eval_all m (exprs_view expressions.now) scope.now).value) }
    ensures asks { (m : Map) → V.shows view.old m →
        OnOk result (V.asked view.new ≡
        V.asked view.old ++ (eval_all m (exprs_view expressions.now) scope.now).reads) }
    ensures reads { (m : Map) → V.shows view.old m →
        OnOk result (reads.new ≡ reads.old ++ (eval_all m (exprs_view expressions.now) scope.now).reads) }
    ensures part { (m : Map) → V.shows view.old m →
        OnErr result (Grew (V.asked view.old) (V.asked view.new)
        (eval_all m (exprs_view expressions.now) scope.now).reads) }
{
    let mut values = room;
    values.clear();
    for expression in expressions {
        values.push(eval_noting(alloc, expression, scope, view, reads)?)?;
    }
    Ok(values)
}

/// Evaluates keys from left to right, and appends their reads to `reads`. Returns the scope in which the value of a
/// cell is calculated. Uses `room` as a scratch buffer. After `NoMemory` `reads` has no meaning.
pub fn evaluate_keys<V: View>(
    alloc: Global,
    room: Env,
    keys: &[Named],
    scope: &Env,
    view: &mut V,
    reads: &mut Objects,
) -> Result<Env, NoMemory>
    ensures keeps { V.keeps view.old view.new }
    ensures same { (m : Map) → V.shows view.old m → V.shows view.new m }
    ensures value { (m : Map) → V.shows view.old m →
        IfOk result (λ s. s ≡ (eval_named m (nameds_view keys.now) scope.now).value) }
    ensures asks { (m : Map) → V.shows view.old m →
        OnOk result (V.asked view.new ≡
        V.asked view.old ++ (eval_named m (nameds_view keys.now) scope.now).reads) }
    ensures reads { (m : Map) → V.shows view.old m →
        OnOk result (reads.new ≡ reads.old ++ (eval_named m (nameds_view keys.now) scope.now).reads) }
    ensures part { (m : Map) → V.shows view.old m →
        OnErr result (Grew (V.asked view.old) (V.asked view.new)
        (eval_named m (nameds_view keys.now) scope.now).reads) }
{
    let mut env = room;
    env.clear();
    for key in keys {
        let value = eval_noting(alloc, &key.value, scope, view, reads)?;
        env.push(key.name.text.copy()?, value)?;
    }
    Ok(env)
}

/// Evaluates the attributes of a node from left to right, and appends their reads to `reads`. Uses `room` as a
/// scratch buffer. After `NoMemory` `reads` has no meaning.
pub fn evaluate_attributes<V: View>(
    alloc: Global,
    room: Attributes,
    attributes: &[Named],
    scope: &Env,
    view: &mut V,
    reads: &mut Objects,
) -> Result<Attributes, NoMemory>
    ensures keeps { V.keeps view.old view.new }
    ensures same { (m : Map) → V.shows view.old m → V.shows view.new m }
    ensures value { (m : Map) → V.shows view.old m →
        IfOk result (λ a. a ≡
        map flat_attribute (map attribute (eval_named m (nameds_view attributes.now) scope.now).value)) }
    ensures asks { (m : Map) → V.shows view.old m →
        OnOk result (V.asked view.new ≡
        V.asked view.old ++ (eval_named m (nameds_view attributes.now) scope.now).reads) }
    ensures reads { (m : Map) → V.shows view.old m →
        OnOk result (reads.new ≡ reads.old ++ (eval_named m (nameds_view attributes.now) scope.now).reads) }
    ensures part { (m : Map) → V.shows view.old m →
        OnErr result (Grew (V.asked view.old) (V.asked view.new)
        (eval_named m (nameds_view attributes.now) scope.now).reads) }
{
    let mut all = room;
    all.clear();
    for named in attributes {
        let value = eval_noting(alloc, &named.value, scope, view, reads)?;
        let name = named.name.text.copy()?;
        all.push(Attribute { name, value })?;
    }
    Ok(all)
}

// Appends each parameter with its argument to the scope, up to the end of the shorter list.
#[tactic(auto, using(crate::proofs::Lookups::bind_none))]
fn bind_into(
    alloc: Global,
    scope: &mut Env,
    parameters: &[Parameter],
    arguments: &Values,
) -> Result<(), NoMemory>
    ensures { OnOk result (scope.new ≡ scope.old ++ bind parameters.now arguments.now) }
{
    let mut rest = arguments.items();
    for parameter in parameters {
        let Some((argument, more)) = rest.split_first() else {
            return Ok(());
        };
        scope.push(parameter.name.text.copy()?, argument.copy(alloc)?)?;
        rest = more;
    }
    Ok(())
}

/// Returns the scope with each parameter and its argument, up to the end of the shorter list. Uses `room` as a scratch
/// buffer.
pub fn bind(
    alloc: Global,
    room: Env,
    parameters: &[Parameter],
    arguments: &Values,
) -> Result<Env, NoMemory>
    ensures { IfOk result (λ s. s ≡ bind parameters.now arguments.now) }
{
    let mut scope = room;
    scope.clear();
    bind_into(alloc, &mut scope, parameters, arguments)?;
    Ok(scope)
}
