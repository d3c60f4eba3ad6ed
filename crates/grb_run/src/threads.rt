//! The thread sections of a script, each by a pass and a thread of its own.
ghost use Rattle.std.specs.Prelude.{◌≡◌, ◌+◌, ◌*◌, ◌<◌, ◌≤◌, length, All, Ok, IfOk, IfErr, OnOk, OnErr};
ghost use Rattle.grb_order.specs.declared.limits.TheConstants.{MOST_PASSES, MOST_ROOM, MOST_SEATS};
ghost use Rattle.grb_run.specs.declared.fault.RunFault.TheVariants as run;
ghost use Rattle.grb_context.specs.Known.{IsPassOf};
ghost use Rattle.grb_context.specs.Meeting.{Met};
ghost use Rattle.grb_run.specs.Threads.{IsJob, AreJobs, IsEnded, AreEnded, AreAsked, IsGathered, AreGathered, AreThreadsRun, IsStop};

use crate::fault::RunFault;
use crate::gate::Gate;
use crate::loads::SectionSteps;
use crate::progress::{Progress, Until};
use crate::section::answers_by;
use grb_call::Object;
use grb_context::{Context, MOST_SEATS, Pass};
use grb_replies::StepAnswer;
use std::alloc::{AllocError, Global};
use std::snapshot::Snapshot;
use std::sync::Wait;
use std::thread;
use std::thread::{Promise, PromisedHandle, Scope, Threads};

/// Whether the passes of a script with so many thread sections have places for so many calls each, main's pass too.
pub(crate) fn check_sections(room: u32, threads: usize) -> Result<(), RunFault>
    requires room { room ≤ MOST_ROOM }
    requires threads { threads < MOST_PASSES }
    ensures fits { OnOk result (room * (threads + 1) ≤ MOST_SEATS) }
    ensures crowded { IfErr result (λ fault. (fault ≡ run.TooManySections) × (MOST_SEATS < room * (threads + 1))) }
{
    let passes = threads as u32 + 1;
    if room * passes > MOST_SEATS {
        Err(RunFault::TooManySections)
    } else {
        Ok(())
    }
}

/// A thread section that is to run: its pass, which has adopted main's, what main's names stand for, and its steps.
#[derive(Drop)]
pub(crate) struct Job {
    pass: Pass,
    objects: Vec<Object>,
    steps: SectionSteps,
}

/// A thread section that has run: its pass, and the answers to its steps.
#[derive(Drop)]
pub(crate) struct FinishedSection {
    pass: Pass,
    answers: Vec<StepAnswer>,
}

/// What the thread of a job promises of what it returns.
#[derive(Drop)]
pub(crate) struct ThreadPromise {
    context: Snapshot<Context>,
    job: Snapshot<Job>,
}

impl Promise<Result<FinishedSection, AllocError>> for ThreadPromise {
    ghost kept_by = { λ promise result. IfOk result (IsEnded promise.context.value promise.job.value) };
}

/// A thread that runs a job.
type Running = PromisedHandle<Result<FinishedSection, AllocError>, ThreadPromise>;

/// Runs a thread section, and helps then until all have ended, if it is one of the first that end. `AllocError` where memory is refused to
/// its answers; its pass is dropped then, and the calls that it made stay in the store.
fn run_job<R: Wait, G: Gate>(
    rt: &R,
    alloc: Global,
    context: &Context,
    job: Job,
    gate: &G,
    progress: &Progress,
) -> Result<FinishedSection, AllocError>
    requires { IsPassOf context.now job.pass }
    ensures { IfOk result (IsEnded context.now job) }
{
    let Job {
        mut pass,
        mut objects,
        steps,
    } = job;
    let answers = answers_by(alloc, context, &mut pass, &mut objects, steps, 0, gate);
    if progress.end_section() {
        progress.help(rt, context, Until::SectionsEnd);
    }
    Ok(FinishedSection {
        pass,
        answers: answers?,
    })
}

/// Lets a thread section's pass adopt main's, and gives the names that the section begins with. `Panic` where a record is not shown, and
/// `OutOfMemory` where memory for the names is refused.
fn names_for(
    alloc: Global,
    context: &Context,
    main: &mut Pass,
    objects: &[Object],
    pass: &mut Pass,
) -> Result<Vec<Object>, RunFault>
    requires main { IsPassOf context.now main.old }
    requires pass { IsPassOf context.now pass.old }
    ensures main { main.new ≡ main.old }
    ensures pass { IsPassOf context.now pass.new }
    ensures met { IfOk result (λ names. Met context.now pass.old pass.new main.old (Ok tt)) }
    ensures names { IfOk result (λ names. names.items ≡ objects.now) }
    ensures fault { IfErr result IsStop }
{
    match context.adopt(pass, main) {
        Ok(()) => {}
        Err(_) => return Err(RunFault::Panic),
    }
    Ok(Vec::from_slice(alloc, objects)?)
}

/// A thread section that is to run by this pass, which adopts main's. `Panic` and `OutOfMemory` as of `names_for`; the pass and the steps
/// are dropped then.
fn job_of(
    alloc: Global,
    context: &Context,
    main: &mut Pass,
    objects: &[Object],
    mut pass: Pass,
    steps: SectionSteps,
) -> Result<Job, RunFault>
    requires main { IsPassOf context.now main.old }
    requires pass { IsPassOf context.now pass }
    ensures main { main.new ≡ main.old }
    ensures job { IfOk result (IsJob context.now (record { objects = objects.now; pass = main.old }) pass steps) }
    ensures fault { IfErr result IsStop }
{
    let objects = names_for(alloc, context, main, objects, &mut pass)?;
    Ok(Job {
        pass,
        objects,
        steps,
    })
}

/// The thread sections that are to run, each by the next of these passes. Each pass adopts main's. `Panic` and `OutOfMemory` as of
/// `names_for`; the passes and the steps are dropped then.
fn jobs_of(
    alloc: Global,
    context: &Context,
    main: &mut Pass,
    objects: &[Object],
    mut passes: Vec<Pass>,
    threads: Vec<SectionSteps>,
) -> Result<Vec<Job>, RunFault>
    requires main { IsPassOf context.now main.old }
    requires passes { All (IsPassOf context.now) passes.items }
    requires count { length passes.items ≡ length threads.items }
    ensures main { main.new ≡ main.old }
    ensures jobs { IfOk result (λ jobs. AreJobs context.now (record { objects = objects.now; pass = main.old }) passes.items threads.items jobs.items) }
    ensures fault { IfErr result IsStop }
{
    let mut jobs = Vec::with_capacity(alloc, threads.len())?;
    for steps in threads {
        let pass = passes.remove(0);
        jobs.push(job_of(alloc, context, main, objects, pass, steps)?)
            .map_err(AllocError::from)?;
    }
    Ok(jobs)
}

/// Starts the thread of a job. `NoThread` where it is not started, for whatever reason, memory too; the job is dropped then.
fn start<'s, E, R: Wait + Sync, G: Gate + Sync>(
    rt: &'s R,
    alloc: Global,
    scope: &Scope<'s, E>,
    context: &'s Context,
    job: Job,
    gate: &'s G,
    progress: &'s Progress,
) -> Result<Running, RunFault>
    requires { IsPassOf context.now job.pass }
    ensures context { IfOk result (λ running. running.promise.context.value ≡ context.now) }
    ensures job { IfOk result (λ running. running.promise.job.value ≡ job) }
    ensures fault { IfErr result IsStop }
{
    let promise = ThreadPromise {
        context: Snapshot::of(context),
        job: Snapshot::of(&job),
    };
    let run = move || -> Result<FinishedSection, AllocError>
        requires { IsPassOf context.now job.pass }
        ensures { IfOk result (IsEnded context.entry.now job) }
    { run_job(rt, alloc, context, job, gate, progress) };
    match scope.spawn_with(promise, run) {
        Ok(running) => Ok(running),
        Err(_) => Err(RunFault::NoThread),
    }
}

/// Starts the threads of all jobs. Where one is not started, those before it run on. `OutOfMemory` where memory for their list is refused;
/// those that were started run on then too.
fn start_all<'s, E, R: Wait + Sync, G: Gate + Sync>(
    rt: &'s R,
    alloc: Global,
    scope: &Scope<'s, E>,
    context: &'s Context,
    jobs: Vec<Job>,
    gate: &'s G,
    progress: &'s Progress,
) -> Result<Vec<Running>, RunFault>
    requires { All (λ job. IsPassOf context.now job.pass) jobs.items }
    ensures running { IfOk result (λ running. AreAsked context.now jobs.items running.items) }
    ensures fault { IfErr result IsStop }
{
    let mut running = Vec::with_capacity(alloc, jobs.len())?;
    for job in jobs {
        running
            .push(start(rt, alloc, scope, context, job, gate, progress)?)
            .map_err(AllocError::from)?;
    }
    Ok(running)
}

/// Starts the threads of all jobs, as `start_all` does. Where one is not started, nobody helps any more: those that help go on until all
/// sections have ended.
fn start_or_end<'s, E, R: Wait + Sync, G: Gate + Sync>(
    rt: &'s R,
    alloc: Global,
    scope: &Scope<'s, E>,
    context: &'s Context,
    jobs: Vec<Job>,
    gate: &'s G,
    progress: &'s Progress,
) -> Result<Vec<Running>, RunFault>
    requires { All (λ job. IsPassOf context.now job.pass) jobs.items }
    ensures running { IfOk result (λ running. AreAsked context.now jobs.items running.items) }
    ensures fault { IfErr result IsStop }
{
    let running = start_all(rt, alloc, scope, context, jobs, gate, progress);
    if running.is_err() {
        progress.end();
    }
    running
}

/// Runs these jobs, each on a thread, and returns when all threads have ended that were started. A section ends with `AllocError` where
/// memory was refused to its answers. `NoThread` where a thread was not started, and `OutOfMemory` where memory for the list of threads or
/// of their ends was refused; the calls that sections made stay in the store.
fn run_jobs<R: Threads + Wait + Sync, G: Gate + Sync>(
    rt: &R,
    alloc: Global,
    context: &Context,
    jobs: Vec<Job>,
    gate: &G,
    progress: &Progress,
) -> Result<Vec<Result<FinishedSection, AllocError>>, RunFault>
    requires { All (λ job. IsPassOf context.now job.pass) jobs.items }
    ensures ended { IfOk result (λ ended. AreEnded context.now jobs.items ended.items) }
    ensures fault { IfErr result IsStop }
{
    thread::scope(
        thread::scope_env(),
        rt,
        |scope| -> Result<Vec<Result<FinishedSection, AllocError>>, RunFault>
            requires { All (λ job. IsPassOf context.now job.pass) jobs.items }
            ensures ended { IfOk result (λ ended. AreEnded context.entry.now jobs.items ended.items) }
            ensures fault { IfErr result IsStop }
        {
            let running = start_or_end(rt, alloc, scope, context, jobs, gate, progress)?;
            match thread::join_promised(rt, running) {
                Ok(ended) => Ok(ended),
                Err(_) => Err(RunFault::OutOfMemory),
            }
        },
    )
}

/// Lets main's pass adopt what a thread section's pass knows, and moves the answers of the section after these. `Panic` where a record is
/// not shown, and `OutOfMemory` where memory for the answers is refused; those of earlier sections stay.
fn gather_from(
    context: &Context,
    main: &mut Pass,
    answers: &mut Vec<StepAnswer>,
    ended: &mut FinishedSection,
) -> Result<(), RunFault>
    requires main { IsPassOf context.now main.old }
    requires ended { IsPassOf context.now ended.old.pass }
    ensures main { IsPassOf context.now main.new }
    ensures gathered { OnOk result (IsGathered context.now main.old answers.old.items ended.old main.new answers.new.items) }
    ensures fault { IfErr result IsStop }
{
    match context.adopt(main, &mut ended.pass) {
        Ok(()) => {}
        Err(_) => return Err(RunFault::Panic),
    }
    answers.append(&mut ended.answers)?;
    Ok(())
}

/// Lets main's pass learn what the pass of a thread section knows, moves the answers of the section after these, and lets the section go.
/// `Panic` and `OutOfMemory` as of `gather_from`.
fn gather(
    context: &Context,
    main: &mut Pass,
    answers: &mut Vec<StepAnswer>,
    mut ended: FinishedSection,
) -> Result<(), RunFault>
    requires main { IsPassOf context.now main.old }
    requires ended { IsPassOf context.now ended.pass }
    ensures main { IsPassOf context.now main.new }
    ensures gathered { OnOk result (IsGathered context.now main.old answers.old.items ended main.new answers.new.items) }
    ensures fault { IfErr result IsStop }
{
    gather_from(context, main, answers, &mut ended)
}

/// Does so of each thread section in turn. `OutOfMemory` also where a section ended without memory for its answers.
fn gather_all(
    context: &Context,
    main: &mut Pass,
    answers: &mut Vec<StepAnswer>,
    ended: Vec<Result<FinishedSection, AllocError>>,
) -> Result<(), RunFault>
    requires main { IsPassOf context.now main.old }
    requires ended { All (λ one. IfOk one (λ ended. IsPassOf context.now ended.pass)) ended.items }
    ensures main { IsPassOf context.now main.new }
    ensures gathered { OnOk result (AreGathered context.now main.old answers.old.items ended.items main.new answers.new.items) }
    ensures fault { IfErr result IsStop }
{
    for one in ended {
        gather(context, main, answers, one?)?;
    }
    Ok(())
}

/// Whether several sections ask for entries.
fn several_ask(threads: &[SectionSteps]) -> bool {
    let mut one = false;
    for steps in threads {
        if steps.asks_for_entries() {
            if one {
                return true;
            }
            one = true;
        }
    }
    false
}

/// Lets main's pass evaluate what main left, where several sections ask for entries.
fn prepare_main(context: &Context, main: &mut Pass, threads: &[SectionSteps])
    requires { IsPassOf context.now main.old }
    ensures pass { IsPassOf context.now main.new }
    ensures same { main.new ≡ record main.old { made = main.new.made } }
{
    if several_ask(threads) {
        let _ = context.prepare(main);
    }
}

/// Runs the thread sections of a script, all at the same time, each on a thread and by one of these passes, and puts their answers after
/// those of main. Where there is none, nothing is done. Where several ask for entries, main's pass first evaluates what main left, and each
/// section goes on from there. `NoThread` where a thread is not started, `OutOfMemory` where memory is refused outside of the calls; all
/// threads have ended then too.
pub(crate) fn run_threads<R: Threads + Wait + Sync, G: Gate + Sync>(
    rt: &R,
    alloc: Global,
    context: &Context,
    main: &mut Pass,
    objects: &[Object],
    passes: Vec<Pass>,
    threads: Vec<SectionSteps>,
    answers: &mut Vec<StepAnswer>,
    gate: &G,
    progress: &Progress,
) -> Result<(), RunFault>
    requires main { IsPassOf context.now main.old }
    requires passes { All (IsPassOf context.now) passes.items }
    requires count { length passes.items ≡ length threads.items }
    ensures main { IsPassOf context.now main.new }
    ensures run { OnOk result (AreThreadsRun context.now (record { objects = objects.now; pass = main.old }) passes.items threads.items answers.old.items main.new answers.new.items) }
    ensures fault { IfErr result IsStop }
    ensures none { length threads.items ≡ 0 → OnErr result ⊥ }
{
    if threads.is_empty() {
        return Ok(());
    }
    prepare_main(context, main, &threads);
    progress.begin_sections();
    let jobs = jobs_of(alloc, context, main, objects, passes, threads)?;
    let ended = run_jobs(rt, alloc, context, jobs, gate, progress)?;
    gather_all(context, main, answers, ended)
}
