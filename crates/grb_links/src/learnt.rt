//! The calls of a list, learnt one after another.
ghost use Rattle.std.specs.Prelude.{true, ◌≡◌, ◌⊎◌, ◌+◌, ◌<◌, ◌≤◌, ◌^◌, Some, List, length, slice_get, IfSome, OnOk, OnErr};
ghost use Rattle.grb_call.specs.declared.call.Call.{Call};
ghost use Rattle.grb_call.specs.Shapes.{is_live};

use crate::lasts::Lasts;
use crate::node::Node;
use crate::nodes::Nodes;
use crate::shape::{Shape, absorb, make_room, note, shape_needed, shape_noted};
use grb_call::{Call, MatrixId, Object, Shapes, VectorId};
use grb_slices::target_at;
use std::alloc::{AllocError, Global};

/// The first calls of a list: a node for each, the shapes after them, and which of them last changed each object. The shape of its output is
/// noted for those calls alone that need nothing else of it, one for a node at most.
#[derive(Drop)]
pub struct Learnt {
    alloc: Global,
    shapes: Shapes,
    nodes: Nodes,
    shapes_noted: Vec<Shape>,
    lasts: Lasts,
    ghost fewer: { length shapes_noted.items ≤ length nodes.items },
    ghost matrices: { length shapes.objects.matrices ≤ length nodes.items },
    ghost vectors: { length shapes.objects.vectors ≤ length nodes.items },
}

impl Learnt {
    ghost use Rattle.grb_links.specs.Lasts.{last_of};
    ghost use Rattle.grb_links.specs.Learnt.{IsLearnt, IsShapeAt, Follows};

    /// No call was learnt. Takes no memory.
    pub fn open(alloc: Global) -> Learnt
        ensures learnt { (cs : List Call) → IsLearnt cs result }
        ensures none { length result.nodes.items ≡ 0 }
    {
        Learnt {
            alloc,
            shapes: Shapes::empty(alloc),
            nodes: Nodes::new(alloc),
            shapes_noted: Vec::new(alloc),
            lasts: Lasts::open(alloc),
        }
    }

    /// Learns the call that comes after those learnt. `AllocError` where memory is refused; then it is not learnt.
    pub fn learn(&mut self, call: &Call) -> Result<(), AllocError>
        requires few { length self.old.nodes.items + 1 < 2 ^ 32 }
        ensures learnt { OnOk result ((cs : List Call) → IsLearnt cs self.old → slice_get cs (length self.old.nodes.items) ≡ Some call.now → IsLearnt cs self.new) }
        ensures err { OnErr result ((cs : List Call) → IsLearnt cs self.old → IsLearnt cs self.new) }
        ensures more { OnOk result (length self.new.nodes.items ≡ length self.old.nodes.items + 1) }
        ensures no_more { OnErr result (length self.new.nodes.items ≡ length self.old.nodes.items) }
        ensures lasts { OnOk result ((o : Object) → (last_of self.new.lasts o ≡ last_of self.old.lasts o) ⊎ (last_of self.new.lasts o ≡ length self.old.nodes.items + 1)) }
        ensures lasts_stay { OnErr result ((o : Object) → last_of self.new.lasts o ≡ last_of self.old.lasts o) }
    {
        let target = target_at(&self.shapes, call);
        let links = self.lasts.links_of(self.alloc, call);
        let shape = shape_needed(&self.shapes, call);
        let count = self.nodes.len() as u32 + 1;
        self.nodes.reserve(1)?;
        self.shapes.reserve_one()?;
        make_room(&mut self.shapes_noted, shape)?;
        self.lasts.change(target, count)?;
        let noted = note(&mut self.shapes_noted, shape);
        self.nodes.push(Node {
            target,
            links,
            noted,
        });
        absorb(&mut self.shapes, call, target);
        Ok(())
    }

    /// Memory for so many calls more. `AllocError` where it is refused; what was learnt is the same in any case.
    pub fn reserve(&mut self, more: usize) -> Result<(), AllocError>
        ensures learnt { (cs : List Call) → IsLearnt cs self.old → IsLearnt cs self.new }
        ensures nodes { self.new.nodes.items ≡ self.old.nodes.items }
        ensures shapes { self.new.shapes ≡ self.old.shapes }
        ensures lasts { self.new.lasts ≡ self.old.lasts }
    {
        self.nodes.reserve(more)
    }

    /// How many calls were learnt. Takes no memory.
    pub fn count(&self) -> usize
        ensures { result ≡ length self.now.nodes.items }
    {
        self.nodes.len()
    }

    /// After how many of the calls the object was last changed; 0 where it never was. Takes no memory.
    pub fn last_of(&self, object: Object) -> u32
        ensures { result ≡ last_of self.now.lasts object }
    {
        self.lasts.last_of(object)
    }

    /// How many matrices the calls made, those that are gone included. Takes no memory.
    pub fn matrices(&self) -> u32
        ensures { result ≡ length self.now.shapes.objects.matrices }
    {
        self.shapes.matrices()
    }

    /// How many vectors the calls made, those that are gone included. Takes no memory.
    pub fn vectors(&self) -> u32
        ensures { result ≡ length self.now.shapes.objects.vectors }
    {
        self.shapes.vectors()
    }

    /// Whether the object is there after the calls. Takes no memory.
    pub fn contains(&self, object: Object) -> bool
        ensures { result ≡ is_live self.now.shapes.objects object }
    {
        match object {
            Object::Matrix(a) => self.shapes.matrix(a).is_some(),
            Object::Vector(v) => self.shapes.vector(v).is_some(),
        }
    }

    /// How many objects the calls made, those that are gone included. Takes no memory.
    pub fn objects(&self) -> u64
        ensures { result ≡ length self.now.shapes.objects.matrices + length self.now.shapes.objects.vectors }
    {
        self.matrices() as u64 + self.vectors() as u64
    }

    /// The object at this place of those that the calls made, there or gone: first stand the matrices by their numbers, then the vectors.
    fn object_at(&self, place: u64) -> Option<Object> {
        let matrices = self.matrices() as u64;
        if place < matrices {
            return Some(Object::Matrix(MatrixId(place as u32)));
        }
        match u32::try_from(place - matrices) {
            Ok(number) => Some(Object::Vector(VectorId(number))),
            Err(_beyond) => None,
        }
    }

    /// The object at this place of those that the calls made, if it is there: first stand the matrices by their numbers, then the vectors.
    /// Takes no memory.
    pub fn live_at(&self, place: u64) -> Option<Object>
        ensures { IfSome result (λ object. is_live self.now.shapes.objects object ≡ true) }
    {
        let object = self.object_at(place)?;
        if self.contains(object) {
            Some(object)
        } else {
            None
        }
    }

    /// The node of the call at this place, if it was learnt. Takes no memory.
    pub fn node(&self, at: usize) -> Option<Node>
        ensures { IfSome result (λ node. at < length self.now.nodes.items) }
    {
        self.nodes.get(at)
    }

    /// The node of the call at this place. Takes no memory.
    pub fn node_at(&self, at: usize) -> Node
        requires { at < length self.now.nodes.items }
        ensures { slice_get self.now.nodes.items at ≡ Some result }
    {
        match self.nodes.get(at) {
            Some(node) => node,
            None => unreachable!(),
        }
    }

    /// The shape that was noted for the call at this place, if one was. Takes no memory.
    pub fn shape_at(&self, at: usize) -> Option<Shape>
        requires { at < length self.now.nodes.items }
        ensures { IsShapeAt self.now at result }
    {
        shape_noted(&self.shapes_noted, self.node_at(at).noted)
    }

    /// Whether the first link of the call at this place leads to the call at `before`. Takes no memory.
    pub fn follows(&self, at: usize, before: u32) -> bool
        requires { at < length self.now.nodes.items }
        ensures { result ≡ true → Follows self.now at before }
    {
        let link = self.node_at(at).links[0];
        link > before && link - before == 1
    }

    /// The call to which the first link of the call at this place leads, if it leads to one. Takes no memory.
    pub fn first_link(&self, at: usize) -> Option<u32>
        requires { at < length self.now.nodes.items }
        ensures { IfSome result (Follows self.now at) }
    {
        let link = self.node_at(at).links[0];
        if link == 0 {
            return None;
        }
        Some(link - 1)
    }

    /// The call to which the first link of the call at this place leads, where both change one object. Takes no memory.
    pub fn own_before(&self, at: u32) -> Option<u32> {
        let node = self.nodes.get(at as usize)?;
        let link = node.links[0];
        if link == 0 {
            return None;
        }
        let before = self.nodes.get(link as usize - 1)?;
        if before.target == node.target {
            Some(link - 1)
        } else {
            None
        }
    }
}
