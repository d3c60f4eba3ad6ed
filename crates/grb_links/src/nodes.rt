//! The nodes of the calls of a list, in little room.
ghost use Rattle.std.specs.Prelude.{true, ◌≡◌, ◌+◌, ◌<◌, ◌≤◌, ◌^◌, ℕ, [], ◌∷◌, ◌++◌, length, slice_get, vec_capacity, vec_len, OnOk};
ghost use Rattle.grb_links.specs.Nodes.{no_rest, object_of, rest_at, rest_of};

use crate::node::Node;
use grb_call::{MatrixId, Object, VectorId};
use std::alloc::{AllocError, Global};
use std::marker::Model;

/// What few nodes have: links after the first, and a shape that is noted.
#[derive(Clone, Copy)]
pub(crate) struct Rest {
    /// The second link.
    pub second: u32,
    /// The third.
    pub third: u32,
    /// The fourth.
    pub fourth: u32,
    /// As in the node.
    pub noted: u32,
}

/// The object that a call changes, in two words.
#[derive(Clone, Copy)]
pub(crate) enum Target {
    /// It changes none.
    Nothing,
    /// It changes this matrix.
    Matrix(MatrixId),
    /// It changes this vector.
    Vector(VectorId),
}

/// What each node has, and after how many rests its own stands, itself included; 0 where all of that is 0.
#[derive(Clone, Copy)]
pub(crate) struct Packed {
    /// The object that the call changes.
    pub target: Target,
    /// The first link.
    pub link: u32,
    /// Which of the rests is its own.
    pub rest: u32,
}

/// A node for each of the first calls of a list. Each is kept in four words; its rest stands in a list next to these, where one of its numbers
/// is not 0.
#[derive(Drop)]
pub(crate) struct Nodes {
    packed: Vec<Packed>,
    rests: Vec<Rest>,
}

impl Model for Nodes {
    ghost use Rattle.std.specs.Prelude.{◌-◌, length, map, vec_capacity};
    ghost use Rattle.grb_links.specs.Nodes.{AreKept, NodeList, unpacked};

    ghost Value = { NodeList };

    ghost view = { λ n. record { items = map (unpacked n.rests.items) n.packed.items; room = vec_capacity n.packed - length n.packed.items; rest_room = vec_capacity n.rests - length n.rests.items } };

    ghost invariant = { λ n. AreKept n.rests.items n.packed.items };
}

/// The same in two words.
fn target_of(object: Option<Object>) -> Target
    ensures { object_of result ≡ object }
{
    match object {
        Some(Object::Matrix(a)) => Target::Matrix(a),
        Some(Object::Vector(v)) => Target::Vector(v),
        None => Target::Nothing,
    }
}

/// The object that is changed, if one is.
fn object_of(target: Target) -> Option<Object>
    ensures { result ≡ object_of target }
{
    match target {
        Target::Matrix(a) => Some(Object::Matrix(a)),
        Target::Vector(v) => Some(Object::Vector(v)),
        Target::Nothing => None,
    }
}

/// The last of so many rests; zeros of 0.
fn rest_at(rests: &[Rest], count: u32) -> Rest
    ensures { result ≡ rest_at rests.now count }
{
    let none = Rest {
        second: 0,
        third: 0,
        fourth: 0,
        noted: 0,
    };
    if count == 0 {
        return none;
    }
    rests.get(count as usize - 1).copied().unwrap_or(none)
}

/// What the node, which has four links, has beyond its target and the first of them.
fn rest_of(node: &Node) -> Rest
    ensures rest { result ≡ rest_of node.now }
    ensures four { length node.now.links ≡ 4 }
{
    Rest {
        second: node.links[1],
        third: node.links[2],
        fourth: node.links[3],
        noted: node.noted,
    }
}

/// Whether all its numbers are 0.
fn is_none(rest: &Rest) -> bool
    ensures { result ≡ true → rest.now ≡ no_rest }
{
    rest.second == 0 && rest.third == 0 && rest.fourth == 0 && rest.noted == 0
}

/// Keeps the rest, and tells after how many of them it stands, itself included; 0 where all its numbers are 0. Takes no memory.
fn keep(rests: &mut Vec<Rest>, rest: Rest) -> u32
    requires room { vec_len rests.old < vec_capacity rests.old }
    requires few { length rests.old.items + 1 < 2 ^ 32 }
    ensures rest { rest_at rests.new.items result ≡ rest }
    ensures within { result ≤ length rests.new.items }
    ensures kept { (n : ℕ) → n ≤ length rests.old.items → rest_at rests.new.items n ≡ rest_at rests.old.items n }
    ensures more { length rests.old.items ≤ length rests.new.items }
    ensures few { length rests.new.items ≤ length rests.old.items + 1 }
{
    if is_none(&rest) {
        return 0;
    }
    rests.push_reserved(rest);
    rests.len() as u32
}

impl Nodes {
    /// No node. Takes no memory.
    pub(crate) fn new(alloc: Global) -> Nodes
        ensures { result.items ≡ [] }
    {
        Nodes {
            packed: Vec::new(alloc),
            rests: Vec::new(alloc),
        }
    }

    /// Memory for so many nodes more, and the rest of one. `AllocError` where it is refused; the nodes are the same in any case.
    pub(crate) fn reserve(&mut self, more: usize) -> Result<(), AllocError>
        ensures items { self.new.items ≡ self.old.items }
        ensures room { OnOk result (more ≤ self.new.room) }
        ensures rest_room { OnOk result (0 < self.new.rest_room) }
    {
        self.packed.reserve(more)?;
        self.rests.reserve(1)
    }

    /// Adds the node. Takes no memory.
    pub(crate) fn push(&mut self, node: Node)
        requires room { 0 < self.old.room }
        requires rest_room { 0 < self.old.rest_room }
        requires few { length self.old.items + 1 < 2 ^ 32 }
        ensures { self.new.items ≡ self.old.items ++ node ∷ [] }
    {
        let rest = keep(&mut self.rests, rest_of(&node));
        self.packed.push_reserved(Packed {
            target: target_of(node.target),
            link: node.links[0],
            rest,
        });
    }

    /// How many nodes there are. Takes no memory.
    pub(crate) fn len(&self) -> usize
        ensures { result ≡ length self.now.items }
    {
        self.packed.len()
    }

    /// The node at this place, if there is one. Takes no memory.
    pub(crate) fn get(&self, at: usize) -> Option<Node>
        ensures { result ≡ slice_get self.now.items at }
    {
        let packed = self.packed.get(at)?;
        let rest = rest_at(&self.rests, packed.rest);
        Some(Node {
            target: object_of(packed.target),
            links: [packed.link, rest.second, rest.third, rest.fourth],
            noted: rest.noted,
        })
    }
}
