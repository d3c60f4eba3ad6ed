//! One section of a script by one pass: its answers, in order.
ghost use Rattle.std.specs.Prelude.{◌≡◌, IfOk};
ghost use Rattle.grb_context.specs.Answered.{Answered};
ghost use Rattle.grb_context.specs.Known.{IsPassOf};
ghost use Rattle.grb_run.specs.Calls.{call_of};
ghost use Rattle.grb_script.specs.declared.statement.Statement.TheVariants as statements;
ghost use Rattle.grb_run.specs.Objects.{made_sort, objects_after};
ghost use Rattle.grb_run.specs.Sections.{IsLoadTold, IsStatementTold, IsStepTold, AreTold};

use crate::calls::call_of;
use crate::gate::Gate;
use crate::loads::{SectionSteps, Step, filling, making, step_of};
use crate::objects::{Named, keep_object, made_sort};
use grb_call::{MatrixId, Object, VectorId};
use grb_context::{Context, Pass};
use grb_market::Loaded;
use grb_replies::{Answer, MatrixSnapshot, StepAnswer, VectorSnapshot};
use grb_script::{Sort, Statement};
use std::alloc::{AllocError, Global};

/// Makes the call of a statement, and keeps what its name stands for. `AllocError` where memory is refused to the place of the name; the
/// call was made then.
fn answer_to(
    context: &Context,
    pass: &mut Pass,
    objects: &mut Vec<Object>,
    statement: Statement,
) -> Result<Answer, AllocError>
    requires pass { IsPassOf context.now pass.old }
    ensures pass { IsPassOf context.now pass.new }
    ensures answered { IfOk result (λ answer. Answered context.now pass.old pass.new (call_of objects.old.items statement) answer) }
    ensures objects { IfOk result (λ answer. objects.new.items ≡ objects_after objects.old.items (made_sort statement) answer) }
{
    let made = made_sort(&statement);
    let answer = context.call(pass, call_of(objects, statement));
    keep_object(objects, made, &answer)?;
    Ok(answer)
}

/// The entries of the object of this name behind a wait for its completion, or why that is refused. They are shared and not copied.
/// `OutOfMemory` also where 2^63 - 1 hold them.
fn entries_named(
    context: &Context,
    pass: &mut Pass,
    objects: &[Object],
    name: usize,
    sort: Sort,
) -> StepAnswer
    requires pass { IsPassOf context.now pass.old }
    ensures pass { IsPassOf context.now pass.new }
    ensures told { IsStatementTold context.now (record { objects = objects.now; pass = pass.old }) (statements.Tuples name sort) result
        (record { objects = objects.now; pass = pass.new }) }
{
    match sort {
        Sort::Matrix => match context.snapshot_matrix(pass, MatrixId::named(objects, name)) {
            Ok(matrix) => StepAnswer::Matrix(MatrixSnapshot::of(matrix)),
            Err(refusal) => StepAnswer::Call(Err(refusal)),
        },
        Sort::Vector => match context.snapshot_vector(pass, VectorId::named(objects, name)) {
            Ok(vector) => StepAnswer::Vector(VectorSnapshot::of(vector)),
            Err(refusal) => StepAnswer::Call(Err(refusal)),
        },
    }
}

/// Makes the call of a statement, and keeps what its name stands for. `tuples` is answered the entries behind its wait, where that is not
/// refused. `AllocError` where memory is refused to the place of the name; the call was made then.
fn answer_to_statement(
    context: &Context,
    pass: &mut Pass,
    objects: &mut Vec<Object>,
    statement: Statement,
) -> Result<StepAnswer, AllocError>
    requires pass { IsPassOf context.now pass.old }
    ensures pass { IsPassOf context.now pass.new }
    ensures told { IfOk result (λ answer. IsStatementTold context.now (record { objects = objects.old.items; pass = pass.old }) statement answer
        (record { objects = objects.new.items; pass = pass.new })) }
{
    match statement {
        Statement::Tuples { name, sort } => Ok(entries_named(context, pass, objects, name, sort)),
        _ => Ok(StepAnswer::Call(answer_to(context, pass, objects, statement)?)),
    }
}

/// Makes the calls that make and fill the matrix of a load, which is kept for the next name. Where it is not made, nothing is filled.
/// `AllocError` where memory is refused to the list of the build, and then no call is made; or to the place of the name, and then the call
/// was made, and nothing is filled.
fn answer_to_load(
    context: &Context,
    pass: &mut Pass,
    objects: &mut Vec<Object>,
    loaded: Loaded,
) -> Result<Answer, AllocError>
    requires pass { IsPassOf context.now pass.old }
    ensures pass { IsPassOf context.now pass.new }
    ensures told { IfOk result (λ answer. IsLoadTold context.now (record { objects = objects.old.items; pass = pass.old }) loaded answer
        (record { objects = objects.new.items; pass = pass.new })) }
{
    let name = objects.len();
    let first = making(&loaded);
    let second = filling(name, loaded)?;
    let made = answer_to(context, pass, objects, first)?;
    if made.is_err() {
        return Ok(made);
    }
    answer_to(context, pass, objects, second)
}

/// Makes the calls of a step: that of a statement, or those of a load. `AllocError` as of these.
fn answer_to_step(
    context: &Context,
    pass: &mut Pass,
    objects: &mut Vec<Object>,
    step: Step,
) -> Result<StepAnswer, AllocError>
    requires pass { IsPassOf context.now pass.old }
    ensures pass { IsPassOf context.now pass.new }
    ensures told { IfOk result (λ answer. IsStepTold context.now (record { objects = objects.old.items; pass = pass.old }) step answer
        (record { objects = objects.new.items; pass = pass.new })) }
{
    match step {
        Step::Statement(statement) => answer_to_statement(context, pass, objects, statement),
        Step::Load(loaded) => Ok(StepAnswer::Call(answer_to_load(context, pass, objects, loaded)?)),
    }
}

/// The answers to the steps of a section, one after another, by its pass. The gate is called round each, with the number of the pass and a
/// number after those of the statements that were begun before. `AllocError` where memory is refused to the list of answers or to what is
/// kept of a step; calls that were made stay in the store.
pub(crate) fn answers_by<G: Gate>(
    alloc: Global,
    context: &Context,
    pass: &mut Pass,
    objects: &mut Vec<Object>,
    steps: SectionSteps,
    begun: u32,
    gate: &G,
) -> Result<Vec<StepAnswer>, AllocError>
    requires pass { IsPassOf context.now pass.old }
    ensures pass { IsPassOf context.now pass.new }
    ensures told { IfOk result (λ answers. AreTold context.now (record { objects = objects.old.items; pass = pass.old }) steps answers.items
        (record { objects = objects.new.items; pass = pass.new })) }
{
    let SectionSteps { commands, loads } = steps;
    let section = pass.number();
    let mut answers = Vec::with_capacity(alloc, commands.len())?;
    let mut loads = loads.into_iter();
    let mut number = begun;
    for numbered in commands {
        number = number.saturating_add(1);
        gate.before(section, number);
        let step = step_of(numbered.command, &mut loads);
        answers.push(answer_to_step(context, pass, objects, step)?)?;
        gate.after(section, number);
    }
    Ok(answers)
}
