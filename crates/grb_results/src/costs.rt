//! What calls cost that are to be made, as far as it bears on what passes share and on when results are dropped. No contract knows any of it:
//! each choice is right, and bears on time and memory alone.
ghost use Rattle.std.specs.Prelude.{◌≡◌, ◌<◌, ◌≤◌, length, IfSome};
ghost use Rattle.grb_results.specs.Kept.{IsTableOf};

use crate::table::Table;
use grb_call::{Call, Class, Object};
use grb_links::{EDIT_WORK, MANY_CALLS, Node, UNKNOWN_WORK, work_of, work_of_edit};
use grb_slices::CallList;

impl Table {
    /// The last of so many calls, if no result of it is kept.
    fn to_make(&self, count: u32) -> Option<Node>
        ensures { IfSome result (λ node. (0 < count) × (count ≤ length self.now.learnt.nodes.items)) }
    {
        if count == 0 || self.kept(count as usize - 1).is_some() {
            return None;
        }
        self.learnt.node(count as usize - 1)
    }

    /// How many entries stand where the last of so many calls left its target, if that is kept.
    fn entries_after(&self, count: u32) -> Option<u64> {
        if count == 0 {
            return None;
        }
        match self.kept(count as usize - 1) {
            Some(content) => Some(content.nvals()),
            None => None,
        }
    }

    /// What the operation, or the diag, with this node costs, about: by the entries of what it reads, where all of that is kept.
    fn work_of_reads(&self, node: &Node, call: &Call) -> u64 {
        let mut entries: u64 = 0;
        'links: for at in 0..node.links.len() {
            let link = node.links[at];
            if link > 0 {
                match self.entries_after(link) {
                    Some(count) => entries = entries.saturating_add(count),
                    None => return UNKNOWN_WORK,
                }
            }
        }
        work_of(call, entries)
    }

    /// What the call with this node costs, about.
    fn work_of_node(&self, node: &Node, call: &Call) -> u64 {
        match call.class() {
            Class::Operates => self.work_of_reads(node, call),
            Class::Edits => work_of_edit(call),
            Class::Makes => match call {
                Call::Diag { .. } => self.work_of_reads(node, call),
                _ => EDIT_WORK,
            },
            Class::Reads(_) | Class::AsksDimensions => EDIT_WORK,
        }
    }

    /// How much work it is, about, to make what the object holds after these calls, as far as that is not kept: the calls that lead to it one
    /// after another, 64 at most. Takes no memory. Whatever it answers is right.
    pub fn work_for<S, C: CallList<S>>(&self, calls: &mut C, source: &S, object: Object) -> u64
        requires held { C.is_in source.now calls.old }
        requires table { IsTableOf (C.calls source.now calls.old) self.now }
        ensures same { calls.new ≡ calls.old }
    {
        let mut count = self.learnt.last_of(object);
        let mut work: u64 = 0;
        'back: for _ in 0..MANY_CALLS {
            let Some(node) = self.to_make(count) else {
                return work;
            };
            let call = calls.call_at(source, count as usize - 1);
            work = work.saturating_add(self.work_of_node(&node, call));
            count = node.links[0];
        }
        UNKNOWN_WORK
    }
}
