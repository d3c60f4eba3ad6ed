//! Marks by the numbers of calls: which of them others read, and which last changed an object. No contract knows any of it.

use crate::learnt::Learnt;

/// Marks the last of so many calls, for each of these numbers.
fn mark_all(marks: &mut [bool], links: &[u32]) {
    for at in 0..links.len() {
        if links[at] > 0 {
            if let Some(mark) = marks.get_mut(links[at] as usize - 1) {
                *mark = true;
            }
        }
    }
}

/// Whether this place is marked. Takes no memory.
pub fn is_marked(marks: &[bool], at: usize) -> bool {
    marks.get(at).copied().unwrap_or(false)
}

/// Takes all marks away. Takes no memory.
pub fn clear_all(marks: &mut [bool]) {
    for at in 0..marks.len() {
        marks[at] = false;
    }
}

impl Learnt {
    /// Marks the calls that left what the one at this place needs. Takes no memory.
    pub fn mark_links(&self, marks: &mut [bool], at: usize) {
        if let Some(node) = self.node(at) {
            mark_all(marks, &node.links);
        }
    }

    /// Marks the calls that left what the one at this place needs, but for the one that left what its own object held before: that it changes.
    /// Takes no memory.
    pub fn mark_others(&self, marks: &mut [bool], at: usize) {
        let Some(node) = self.node(at) else {
            return;
        };
        for place in 0..4 {
            let link = node.links[place];
            if link > 0 {
                if let Some(before) = self.node(link as usize - 1) {
                    if before.target != node.target {
                        mark_all(marks, &[link]);
                    }
                }
            }
        }
    }

    /// Marks the call that last changed each object which is there. Takes no memory.
    pub fn mark_lasts(&self, marks: &mut [bool]) {
        'objects: for place in 0..self.objects() {
            if let Some(object) = self.live_at(place) {
                mark_all(marks, &[self.last_of(object)]);
            }
        }
    }
}
