//! What each thread of the example does.
ghost use Rattle.grb_context.specs.Known.{IsPassOf};

use crate::graph::{Failure, Graph, HUB, RING};
use grb_context::{Context, Pass};
use grb_core::Refusal;
use std::alloc::Global;

/// The threads that change the graph, one for each of the passes 0 to 3.
pub(crate) const EDITORS: u64 = 4;

/// The editor that takes its edges to the hub away again.
const CUTS: u64 = 3;

/// How often the thread of the last pass asks.
const ROUNDS: u32 = 100;

/// Adds the edges of each fourth vertex of the ring: one to the next vertex, one to the hub. The last editor then cuts those to the
/// hub again.
fn edit(context: &Context, pass: &mut Pass, graph: Graph, editor: u64) -> Result<(), Refusal>
    requires { IsPassOf context.now pass.old }
    ensures { IsPassOf context.now pass.new }
{
    'adding: for i in 0..RING {
        if i % EDITORS == editor {
            graph.connect(context, pass, i, (i + 1) % RING)?;
            graph.connect(context, pass, i, HUB)?;
        }
    }
    if editor == CUTS {
        'cutting: for i in 0..RING {
            if i % EDITORS == editor {
                graph.cut(context, pass, i, HUB)?;
            }
        }
    }
    Ok(())
}

/// Asks once for the hub's degree and its neighbours, in a branch; how many answers were wrong. All answers are of one moment, so the hub
/// has as many neighbours as edges. The edges may come at any moment, but those that nobody cuts stay once they were seen.
fn ask(
    alloc: Global,
    context: &Context,
    pass: &mut Pass,
    graph: Graph,
    seen: &mut [bool; 32],
) -> Result<u32, Failure>
    requires { IsPassOf context.now pass.old }
    ensures { IsPassOf context.now pass.new }
{
    let mut moment = graph.now(alloc, context, pass)?;
    let mut wrong = 0u32;
    let mut neighbours = 0u64;
    'vertices: for i in 0..RING {
        let is_neighbour = moment.is_neighbour(HUB, i)?;
        neighbours = neighbours.saturating_add(u64::from(is_neighbour));
        if i % EDITORS != CUTS {
            if seen[i as usize] && !is_neighbour {
                wrong = wrong.saturating_add(1);
            }
            seen[i as usize] = is_neighbour;
        }
    }
    if moment.degree(HUB)? != neighbours {
        wrong = wrong.saturating_add(1);
    }
    Ok(wrong)
}

/// Asks again and again; how many answers were wrong.
fn watch(alloc: Global, context: &Context, pass: &mut Pass, graph: Graph) -> Result<u32, Failure>
    requires { IsPassOf context.now pass.old }
    ensures { IsPassOf context.now pass.new }
{
    let mut seen = [false; 32];
    let mut wrong = 0u32;
    'rounds: for _ in 0..ROUNDS {
        wrong = wrong.saturating_add(ask(alloc, context, pass, graph, &mut seen)?);
    }
    Ok(wrong)
}

/// What one thread does with its pass: the first four change the graph, the fifth watches it. The answer is how many of the replies
/// that it got were wrong, or the refusal that ended it.
pub(crate) fn work(
    alloc: Global,
    context: &Context,
    mut pass: Pass,
    graph: Graph,
) -> Result<u32, Failure>
    requires { IsPassOf context.now pass }
{
    let number = u64::from(pass.number());
    if number < EDITORS {
        edit(context, &mut pass, graph, number)?;
        Ok(0)
    } else {
        watch(alloc, context, &mut pass, graph)
    }
}
