//! The graph of the example, as a matrix of the store.
ghost use Rattle.grb_context.specs.Known.{IsPassOf};

use crate::moment::Moment;
use grb_call::MatrixId;
use grb_context::{Context, NoSuccessor, Pass};
use grb_core::{Domain, Refusal, Value};
use std::alloc::Global;

/// The vertices that stand in a ring, by the numbers 0 to 31.
pub(crate) const RING: u64 = 32;

/// The vertex in the middle, which is none of the ring.
pub(crate) const HUB: u64 = RING;

/// All vertices.
pub(crate) const VERTICES: u64 = RING + 1;

/// A graph in the store. Any thread may copy it: it is a number.
#[derive(Clone, Copy)]
pub(crate) struct Graph {
    /// A 1 in row i, column j for each edge between the vertices i and j, so two entries for an edge.
    edges: MatrixId,
}

/// Why the graph did not answer.
#[derive(Clone, Copy, Debug, PartialEq, Eq)]
pub(crate) enum Failure {
    /// A call was refused.
    Refused(Refusal),
    /// There was no branch to ask.
    NoBranch(NoSuccessor),
    /// A truth value stands where the graph has numbers.
    NoNumber,
}

impl From<Refusal> for Failure {
    fn from(refusal: Refusal) -> Failure {
        Failure::Refused(refusal)
    }
}

impl From<NoSuccessor> for Failure {
    fn from(why: NoSuccessor) -> Failure {
        Failure::NoBranch(why)
    }
}

impl Graph {
    /// A graph with no edges. The call that makes a matrix replies with its number, by its contract.
    pub(crate) fn new(context: &Context, pass: &mut Pass) -> Result<Graph, Refusal>
        requires { IsPassOf context.now pass.old }
        ensures { IsPassOf context.now pass.new }
    {
        let made = context.new_matrix(pass, Domain::Uint64, VERTICES, VERTICES)?;
        Ok(Graph {
            edges: made.matrix().unwrap(),
        })
    }

    /// Adds the edge between two vertices: two calls, each of which takes effect at a moment of its own.
    pub(crate) fn connect(
        self,
        context: &Context,
        pass: &mut Pass,
        i: u64,
        j: u64,
    ) -> Result<(), Refusal>
        requires { IsPassOf context.now pass.old }
        ensures { IsPassOf context.now pass.new }
    {
        context.set_matrix(pass, self.edges, i, j, Value::Uint64(1))?;
        context.set_matrix(pass, self.edges, j, i, Value::Uint64(1))?;
        Ok(())
    }

    /// Takes the edge between two vertices away, if there is one.
    pub(crate) fn cut(
        self,
        context: &Context,
        pass: &mut Pass,
        i: u64,
        j: u64,
    ) -> Result<(), Refusal>
        requires { IsPassOf context.now pass.old }
        ensures { IsPassOf context.now pass.new }
    {
        context.remove_matrix(pass, self.edges, i, j)?;
        context.remove_matrix(pass, self.edges, j, i)?;
        Ok(())
    }

    /// The graph as it stands at one moment inside the call.
    pub(crate) fn now(
        self,
        alloc: Global,
        context: &Context,
        pass: &mut Pass,
    ) -> Result<Moment, Failure>
        requires { IsPassOf context.now pass.old }
        ensures { IsPassOf context.now pass.new }
    {
        Moment::of(alloc, context, pass, self.edges)
    }
}
