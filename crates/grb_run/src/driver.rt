//! A run of a script, from its bytes to its lines.
ghost use Rattle.std.specs.Prelude.{◌≡◌, ℕ, ◌+◌, ◌-◌, ◌*◌, ◌^◌, ◌<◌, ◌≤◌, List, ◌∷◌, length, All, OnOk, IfOk, IfErr};
ghost use Rattle.grb_order.specs.declared.limits.TheConstants.{MOST_PASSES, MOST_ROOM, MOST_SEATS};
ghost use Rattle.grb_order.specs.Order.{room_of};
ghost use Rattle.grb_context.specs.Known.{AreNew, IsPassOf};
ghost use Rattle.grb_run.specs.Loads.{steps_listed};
ghost use Rattle.grb_run.specs.Sections.{AreAnswers};
ghost use Rattle.grb_run.specs.Source.{AreCountable};
ghost use Rattle.grb_run.specs.Run.{WroteAll, EndsWith, sink_failures_after, MetFaults};
ghost use Rattle.grb_run.specs.Threads.{IsStopOf};

use crate::fault::RunFault;
use crate::gate::Gate;
use crate::loads::{ScriptSteps, script_steps};
use crate::progress::{Progress, start_helpers};
use crate::section::answers_by;
use crate::source::Source;
use crate::threads::{check_sections, run_threads};
use grb_context::{Context, Pass};
use grb_market::Sink;
use grb_replies::{StepAnswer, put_lines};
use grb_script::read_script;
use std::alloc::{AllocError, Global};
use std::sync::Wait;
use std::thread;
use std::thread::Threads;

/// A new store with room for so many calls, a pass for main, and one for each of so many thread sections; where it is to be helped, threads
/// without a pass can. `AllocError` where memory is refused; then no store is opened.
fn open_store(
    alloc: Global,
    room: u32,
    threads: usize,
    helped: bool,
) -> Result<(Context, Pass, Vec<Pass>), AllocError>
    requires room { (0 < room) × (room ≤ MOST_ROOM) }
    requires threads { threads < MOST_PASSES }
    requires seats { room * (threads + 1) ≤ MOST_SEATS }
    ensures room { IfOk result (λ opened. room_of opened.0.order ≡ room) }
    ensures main { IfOk result (λ opened. IsPassOf opened.0 opened.1) }
    ensures passes { IfOk result (λ opened. All (IsPassOf opened.0) opened.2.items) }
    ensures new { IfOk result (λ opened. AreNew opened.0.order (threads + 1) (opened.1 ∷ opened.2.items) (threads + 1)) }
    ensures count { IfOk result (λ opened. length opened.2.items ≡ threads) }
{
    let (context, mut passes) = Context::open_with(alloc, room, threads as u32 + 1, helped)?;
    let main = passes.remove(0);
    Ok((context, main, passes))
}

/// The answers to the steps of a script, in a new store with these passes: main's, and one for each thread section. `OutOfMemory` where
/// memory for answers, names or threads is refused; then nothing is written.
fn run_sections<R: Threads + Wait + Sync, G: Gate + Sync>(
    rt: &R,
    alloc: Global,
    context: &Context,
    main: &mut Pass,
    passes: Vec<Pass>,
    script: ScriptSteps,
    gate: &G,
    progress: &Progress,
) -> Result<Vec<StepAnswer>, RunFault>
    requires main { IsPassOf context.now main.old }
    requires passes { All (IsPassOf context.now) passes.items }
    requires new { AreNew context.now.order (length script.threads.items + 1) (main.old ∷ passes.items) (length script.threads.items + 1) }
    requires count { length passes.items ≡ length script.threads.items }
    ensures answers { IfOk result (λ answers. AreAnswers (room_of context.now.order) (steps_listed script) answers.items) }
    ensures fault { IfErr result (IsStopOf script.threads.items) }
{
    let ScriptSteps {
        main: steps,
        threads,
        finally,
    } = script;
    let begun = u32::try_from(steps.len()).unwrap_or(u32::MAX);
    let mut objects = Vec::new(alloc);
    let mut answers = answers_by(alloc, context, main, &mut objects, steps, 0, gate)?;
    run_threads(
        rt,
        alloc,
        context,
        main,
        &objects,
        passes,
        threads,
        &mut answers,
        gate,
        progress,
    )?;
    let mut last = answers_by(alloc, context, main, &mut objects, finally, begun, gate)?;
    answers.append(&mut last)?;
    Ok(answers)
}

/// The same while threads help: they make blocks of the products that are dear.
fn run_helped<R: Threads + Wait + Sync, G: Gate + Sync>(
    rt: &R,
    alloc: Global,
    context: &Context,
    main: Pass,
    passes: Vec<Pass>,
    script: ScriptSteps,
    gate: &G,
    progress: &Progress,
) -> Result<Vec<StepAnswer>, RunFault>
    requires main { IsPassOf context.now main }
    requires passes { All (IsPassOf context.now) passes.items }
    requires new { AreNew context.now.order (length script.threads.items + 1) (main ∷ passes.items) (length script.threads.items + 1) }
    requires count { length passes.items ≡ length script.threads.items }
    ensures answers { IfOk result (λ answers. AreAnswers (room_of context.now.order) (steps_listed script) answers.items) }
    ensures fault { IfErr result (IsStopOf script.threads.items) }
{
    thread::scope(
        thread::scope_env(),
        rt,
        |scope| -> Result<Vec<StepAnswer>, RunFault>
            requires main { IsPassOf context.now main }
            requires passes { All (IsPassOf context.now) passes.items }
            requires new { AreNew context.now.order (length script.threads.items + 1) (main ∷ passes.items) (length script.threads.items + 1) }
            requires count { length passes.items ≡ length script.threads.items }
            ensures answers { IfOk result (λ answers. AreAnswers (room_of context.entry.now.order) (steps_listed script) answers.items) }
            ensures fault { IfErr result (IsStopOf script.threads.items) }
        {
            start_helpers(rt, scope, context, progress);
            let mut main = main;
            let answers = run_sections(
                rt, alloc, context, &mut main, passes, script, gate, progress,
            );
            progress.end();
            answers
        },
    )
}

/// The answers to the steps of a script, in a new store with room for so many calls: main's, those of the thread sections by their numbers,
/// and those of the last section. So many threads run it or help, if it has no more of its own. `OutOfMemory` where memory for the store or
/// for answers, names or threads is refused; then nothing is written.
fn answers_to<R: Threads + Wait + Sync, G: Gate + Sync>(
    rt: &R,
    alloc: Global,
    room: u32,
    threads: u32,
    script: ScriptSteps,
    gate: &G,
) -> Result<Vec<StepAnswer>, RunFault>
    requires room { (0 < room) × (room ≤ MOST_ROOM) }
    requires threads { length script.threads.items < MOST_PASSES }
    requires seats { room * (length script.threads.items + 1) ≤ MOST_SEATS }
    ensures answers { IfOk result (λ answers. AreAnswers room (steps_listed script) answers.items) }
    ensures fault { IfErr result (IsStopOf script.threads.items) }
{
    let progress = Progress::new(rt, &script, threads);
    let (context, main, passes) = open_store(
        alloc,
        room,
        script.threads.len(),
        progress.has_more(),
    )?;
    run_helped(rt, alloc, &context, main, passes, script, gate, &progress)
}

/// Runs the script of a source in a new store with room for `room` calls, and puts a line for each statement into the sink: main's, those
/// of the thread sections by their numbers, and those of the last section.
///
/// The script is read whole. Then `room` times the number of its passes, main's and one for each thread section, is held against
/// `MOST_SEATS`, and then the file of each of its loads is read, in their order; where one has a fault, nothing is run. Main runs first.
/// Then each thread section runs on a thread and with a pass of its own, all at the same time, and when all have ended the last section
/// runs with main's pass. When all answers are there, the lines are put as they are made, some 16,384 bytes at a time. They take no memory,
/// so where that is refused outside of the calls nothing is written; a call for which it is refused is answered so, in its line. The gate is
/// called round each statement, with the number of its section, which for main and the last section is 0; the statements of the last section
/// are counted after those of main.
///
/// Where a statement makes a product of two matrices, threads that have nothing else to do help with the dear ones: those of the first
/// sections that end, until all have, and as many before and after the sections, where main or the last section has such a statement, but no
/// more than there are other processors; and until the run ends as many as are missing to `threads`, with main's and the sections' counted.
/// They run no statement, and have no pass and no room. Where one is not started, the run goes on without it. What may be written is the
/// same (own).
pub fn run_helped_script<R: Threads + Wait + Sync, S: Source, W: Sink, G: Gate + Sync>(
    rt: &R,
    alloc: Global,
    room: u32,
    threads: u32,
    source: &mut S,
    sink: &mut W,
    gate: &G,
) -> Result<(), RunFault>
    requires room { (0 < room) × (room ≤ MOST_ROOM) }
    requires source { AreCountable (S.faults source.old) }
    requires sink { W.failures sink.old < 2 ^ 64 - 1 }
    ensures ok { OnOk result (WroteAll room (S.script_bytes source.old) (S.file_bytes source.old) (W.taken sink.old) (W.taken sink.new)) }
    ensures err { IfErr result (EndsWith room (S.script_bytes source.old) (S.file_bytes source.old) (W.taken sink.old) (W.taken sink.new)) }
    ensures sink_failures { W.failures sink.new ≡ sink_failures_after (W.failures sink.old) result }
    ensures source_faults { MetFaults (S.faults source.old) result (S.faults source.new) }
    ensures script_stays { S.script_bytes source.new ≡ S.script_bytes source.old }
    ensures files_stay { (path : List ℕ) → S.file_bytes source.new path ≡ S.file_bytes source.old path }
{
    let text = source.script()?;
    let script = read_script(alloc, &text)?;
    check_sections(room, script.threads.len())?;
    let steps = script_steps(alloc, source, script)?;
    let answers = answers_to(rt, alloc, room, threads, steps, gate)?;
    put_lines(sink, &answers)?;
    Ok(())
}

/// Runs the script of a source as [`run_helped_script`] does, by the threads of main and its sections.
pub fn run_script<R: Threads + Wait + Sync, S: Source, W: Sink, G: Gate + Sync>(
    rt: &R,
    alloc: Global,
    room: u32,
    source: &mut S,
    sink: &mut W,
    gate: &G,
) -> Result<(), RunFault>
    requires room { (0 < room) × (room ≤ MOST_ROOM) }
    requires source { AreCountable (S.faults source.old) }
    requires sink { W.failures sink.old < 2 ^ 64 - 1 }
    ensures ok { OnOk result (WroteAll room (S.script_bytes source.old) (S.file_bytes source.old) (W.taken sink.old) (W.taken sink.new)) }
    ensures err { IfErr result (EndsWith room (S.script_bytes source.old) (S.file_bytes source.old) (W.taken sink.old) (W.taken sink.new)) }
    ensures sink_failures { W.failures sink.new ≡ sink_failures_after (W.failures sink.old) result }
    ensures source_faults { MetFaults (S.faults source.old) result (S.faults source.new) }
    ensures script_stays { S.script_bytes source.new ≡ S.script_bytes source.old }
    ensures files_stay { (path : List ℕ) → S.file_bytes source.new path ≡ S.file_bytes source.old path }
{
    run_helped_script(rt, alloc, room, 1, source, sink, gate)
}
