//! An example to read, outside the product: a graph that five threads share. Four of them change it, the fifth asks for degrees and
//! neighbours meanwhile, each time in a branch, so of one moment, and at the end one pass reads what they made. Each thread has a pass of
//! its own, and each call takes effect at one moment between its start and its reply; so what the program prints is the same in every run.
//!
//! The graph is a ring of 32 vertices, each of which an edge ties to the hub in the middle; one of the four threads cuts its edges to
//! the hub again.
//!
//! The second part is a service that never stops: four threads change a chain of stores, of which each takes few changes. Where one is full
//! the next goes on with what it held, twelve times, and each change that was answered is in the last store.
#![tactic(auto)]

ghost use Rattle.std.specs.Prelude.{◌≡◌, ◌<◌, ◌++◌, ◌∷◌, [], All, length};
ghost use Rattle.grb_context.specs.Known.{IsPassOf};

mod changes;
mod graph;
mod moment;
mod service;
mod work;

use crate::graph::{Failure, Graph, HUB, RING};
use crate::moment::Moment;
use crate::service::{Served, run_service};
use crate::work::work;
use grb_context::{Context, Pass};
use grb_core::Refusal;
use std::alloc::Global;
use std::io;
use std::test::Fail;
use std::thread::{Threads, map_vec};

/// The calls that the history has room for; a run enters 145. What is asked takes none.
const ROOM: u32 = 256;

/// A pass for each of the five threads.
const THREADS: u32 = 5;

/// What one pass reads of the graph at the end.
#[derive(Drop)]
struct Summary {
    edges: u64,
    degree: u64,
    neighbours: Vec<u64>,
    triangles: u64,
}

/// Puts a vertex after those that were found, if it has an edge to the hub.
fn keep_neighbour(moment: &mut Moment, i: u64, found: &mut Vec<u64>) -> Result<(), Refusal> {
    if !moment.is_neighbour(HUB, i)? {
        return Ok(());
    }
    match found.push(i) {
        Ok(()) => Ok(()),
        Err(_) => Err(Refusal::OutOfMemory),
    }
}

/// The vertices of the ring that have an edge to the hub, in rising order.
fn neighbours(alloc: Global, moment: &mut Moment) -> Result<Vec<u64>, Refusal> {
    let mut found = Vec::new(alloc);
    'vertices: for i in 0..RING {
        keep_neighbour(moment, i, &mut found)?;
    }
    Ok(found)
}

/// Reads it, all of one moment.
fn read(alloc: Global, context: &Context, pass: &mut Pass, graph: Graph) -> Result<Summary, Failure>
    requires { IsPassOf context.now pass.old }
    ensures { IsPassOf context.now pass.new }
{
    let mut moment = graph.now(alloc, context, pass)?;
    Ok(Summary {
        edges: moment.edges()?,
        degree: moment.degree(HUB)?,
        neighbours: neighbours(alloc, &mut moment)?,
        triangles: moment.triangles()?,
    })
}

/// Takes the pass of the highest number out of these.
pub(crate) fn last_pass(context: &Context, passes: &mut Vec<Pass>) -> Pass
    requires ours { All (IsPassOf context.now) passes.old.items }
    requires some { 0 < length passes.old.items }
    ensures pass { IsPassOf context.now result }
    ensures rest { All (IsPassOf context.now) passes.new.items }
    ensures last { passes.old.items ≡ passes.new.items ++ result ∷ [] }
{
    passes.pop().unwrap()
}

/// How many replies were wrong by all threads together, or the first refusal that ended one.
fn all_wrong(ends: &[Result<u32, Failure>]) -> Result<u32, Failure> {
    let mut wrong = 0u32;
    for end in ends {
        wrong = wrong.saturating_add((*end)?);
    }
    Ok(wrong)
}

/// Has a thread work on the graph with each of these passes, and waits for all of them; how many replies were wrong.
fn work_at_once<R: Threads + Sync + AllocGlobal>(
    rt: &R,
    context: &Context,
    passes: Vec<Pass>,
    graph: Graph,
) -> Result<u32, Failure>
    requires { All (IsPassOf context.now) passes.items }
{
    let alloc = rt.alloc();
    match map_vec(rt, passes, &|pass| work(alloc, context, pass, graph)) {
        Ok(ends) => all_wrong(&ends),
        Err(_) => Err(Failure::Refused(Refusal::OutOfMemory)),
    }
}

/// Makes a graph by its own pass, has threads work on it with the others, and reads it when all have ended: what they made, and
/// how many replies were wrong. A call that was refused ends it with its refusal.
fn serve<R: Threads + Sync + AllocGlobal>(
    rt: &R,
    context: &Context,
    own: &mut Pass,
    passes: Vec<Pass>,
) -> Result<(Summary, u32), Failure>
    requires own { IsPassOf context.now own.old }
    requires passes { All (IsPassOf context.now) passes.items }
{
    let graph = Graph::new(context, own)?;
    let wrong = work_at_once(rt, context, passes, graph)?;
    let summary = read(rt.alloc(), context, own, graph)?;
    Ok((summary, wrong))
}

/// Opens a store with a pass for each thread and one more, and serves by it.
fn open_and_serve<R: Threads + Sync + AllocGlobal>(rt: &R) -> Result<(Summary, u32), Failure> {
    match Context::open(rt.alloc(), ROOM, THREADS + 1) {
        Ok((context, mut passes)) => {
            let mut own = last_pass(&context, &mut passes);
            serve(rt, &context, &mut own, passes)
        }
        Err(_) => Err(Failure::Refused(Refusal::OutOfMemory)),
    }
}

/// Writes a line for each thing that was read.
fn write_summary(rt: &impl Print, summary: &Summary, wrong: u32) -> io::Result<()> {
    println!(rt; "edges: {}", summary.edges)?;
    println!(rt; "degree of the hub: {}", summary.degree)?;
    print!(rt; "neighbours of the hub:")?;
    for i in &summary.neighbours {
        print!(rt; " {i}")?;
    }
    println!(rt; "")?;
    println!(rt; "triangles: {}", summary.triangles)?;
    println!(rt; "wrong replies meanwhile: {wrong}")
}

/// Writes a count for each worker.
fn write_counts(rt: &impl Print, what: &str, counts: &[u64]) -> io::Result<()> {
    print!(rt; "{what}:")?;
    for count in counts {
        print!(rt; " {count}")?;
    }
    println!(rt; "")
}

/// Writes a line for each thing that the service did.
fn write_served(rt: &impl Print, served: &Served) -> io::Result<()> {
    println!(rt; "stores of the service: {}", served.stores)?;
    write_counts(rt, "changes that were answered", &served.done)?;
    write_counts(rt, "changes in the last store", &served.kept)
}

fn main(rt: HostRuntime) -> Result<(), Fail> {
    match open_and_serve(&rt) {
        Ok((summary, wrong)) => write_summary(&rt, &summary, wrong)?,
        Err(Failure::Refused(refusal)) => {
            println!(&rt; "refused: {}. {}", refusal.name(), refusal.hint())?;
        }
        Err(Failure::NoBranch(why)) => println!(&rt; "no branch: {why:?}")?,
        Err(Failure::NoNumber) => println!(&rt; "the graph holds no numbers")?,
    }
    write_served(&rt, &run_service(&rt)?)?;
    Ok(())
}
