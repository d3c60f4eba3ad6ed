//! An edition: calls, and results of them.
ghost use Rattle.std.specs.Prelude.{◌≡◌, ◌<◌, ◌≤◌, ℕ, List, All, IsTrue, IfOk, length, map};
ghost use Rattle.grb_call.specs.declared.call.Call.{Call};
ghost use Rattle.grb_results.specs.declared.exchange.Kept.{Kept};
ghost use Rattle.grb_results.specs.Kept.{AreKept, IsSameBut, KeepsAll, KeepsFrom};
ghost use Rattle.grb_results.specs.Results.{IsTable};
ghost use Rattle.grb_editions.specs.Versions.{IsTaken};

use crate::looked::Looked;
use counted_slot::Fits;
use grb_call::Call;
use grb_results::{Kept, Table};
use std::alloc::{AllocError, Global};
use std::marker::Model;

/// Calls, and results of them.
#[derive(Drop)]
pub(crate) struct Edition {
    calls: Vec<Call>,
    results: Vec<Kept>,
}

impl Model for Edition {
    ghost use Rattle.std.specs.Prelude.{◌<◌, length};
    ghost use Rattle.grb_results.specs.Kept.{AreKept};
    ghost use Rattle.grb_editions.specs.Versions.{EditionView};

    ghost Value = { EditionView };

    ghost view = { λ v. record { calls = v.calls.items; results = v.results.items } };

    ghost invariant = { λ v. AreKept v.calls.items v.results.items × (0 < length v.calls.items) };
}

/// Any edition fits a place: its type says all that readers need.
impl Fits for Edition {
    type Tag = ();

    ghost fits = { λ tag edition. Unit };
}

/// Whether the calls are known to be the same: of builds the lists are compared, each whole, where they stand in one form. Takes no memory.
fn is_same_call(a: &Call, b: &Call) -> bool
    ensures { IsTrue result → a.now ≡ b.now }
{
    match a {
        Call::BuildMatrix {
            a: matrix,
            tuples,
            dup,
        } => match b {
            Call::BuildMatrix {
                a: other,
                tuples: others,
                dup: others_dup,
            } => matrix.0 == other.0 && *dup == *others_dup && tuples.is_one(others),
            _ => false,
        },
        Call::BuildVector { v, tuples, dup } => match b {
            Call::BuildVector {
                v: other,
                tuples: others,
                dup: others_dup,
            } => v.0 == other.0 && *dup == *others_dup && tuples.is_one(others),
            _ => false,
        },
        _ => a == b,
    }
}

/// Whether the calls begin with these, so that results of these are results of them. Takes no memory.
fn begin_with(calls: &[&Call], first: &[Call], looked: &mut Looked) -> bool
    ensures within { IsTrue result → length first.now ≤ length calls.now }
    ensures kept { IsTrue result → (results : List Kept) → AreKept first.now results → AreKept (map (λ c. c.now) calls.now) results }
{
    if first.len() > calls.len() {
        return false;
    }
    'calls: for at in 0..first.len() {
        looked.compared = looked.compared.saturating_add(1);
        if !is_same_call(calls[at], &first[at]) {
            return false;
        }
    }
    true
}

/// Copies of the calls. `AllocError` where memory is refused.
fn copies(alloc: Global, calls: &[&Call]) -> Result<Vec<Call>, AllocError>
    ensures { IfOk result (λ copies. copies.items ≡ map (λ c. c.now) calls.now) }
{
    let mut copies = Vec::with_capacity(alloc, calls.len())?;
    'calls: for at in 0..calls.len() {
        copies.push_reserved(calls[at].try_clone()?);
    }
    Ok(copies)
}

/// Lets the table keep these results also, as far as it can: one that is refused is passed over.
fn keep_all(table: &mut Table, results: &[Kept])
    ensures table { (cs : List Call) → AreKept cs results.now → IsTable cs table.old → IsTable cs table.new }
    ensures same { IsSameBut table.old table.new }
    ensures stays { KeepsAll table.old table.new }
    ensures first { (n : ℕ) → All (λ k. k.at < n) results.now → KeepsFrom n table.old table.new }
{
    'results: for at in 0..results.len() {
        let _ = table.keep(&results[at]);
    }
}

impl Edition {
    /// These results of the calls, with copies of the calls. `AllocError` where memory is refused.
    pub(crate) fn of(
        alloc: Global,
        calls: &[&Call],
        results: Vec<Kept>,
    ) -> Result<Edition, AllocError>
        requires kept { AreKept (map (λ c. c.now) calls.now) results.items }
        requires counted { 0 < length calls.now }
        ensures { IfOk result (λ edition. edition.calls ≡ map (λ c. c.now) calls.now) }
    {
        Ok(Edition {
            calls: copies(alloc, calls)?,
            results,
        })
    }

    /// Lets the table keep its results also, where its calls begin these: how many calls it has, and 0 where they do not, as
    /// [`Versions::take_into`] says.
    ///
    /// [`Versions::take_into`]: crate::Versions::take_into
    pub(crate) fn take_into(&self, calls: &[&Call], table: &mut Table, looked: &mut Looked) -> usize
        ensures { IsTaken (map (λ c. c.now) calls.now) table.old table.new result }
    {
        if !begin_with(calls, &self.calls, looked) {
            return 0;
        }
        keep_all(table, &self.results);
        self.calls.len()
    }

    /// How many entries its results have: of all, or of those alone that are by the table the last of an object that is there. Takes no
    /// memory.
    pub(crate) fn entries(&self, still: Option<&Table>) -> u64 {
        let mut entries: u64 = 0;
        'results: for kept in &self.results {
            let counts = match still {
                Some(table) => table.is_last(kept.at),
                None => true,
            };
            if counts {
                entries = entries.saturating_add(kept.content.nvals());
            }
        }
        entries
    }

    /// Whether more entries of its results are of calls that are not the last of an object that is there, by the table, than are of such that
    /// are. Of more calls than the table has learnt it is not. Takes no memory.
    pub(crate) fn is_outdated(&self, table: &Table) -> bool {
        let still = self.entries(Some(table));
        table.count() >= self.calls.len() && self.entries(None).saturating_sub(still) > still
    }
}
