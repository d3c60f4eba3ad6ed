//! What a pass has evaluated of the calls that it knows.
ghost use Rattle.std.specs.Prelude.{◌≡◌, ◌<◌, ◌≤◌, ◌+◌, List, length, All, IfOk, OnOk, OnErr};
ghost use Rattle.grb_order.specs.declared.limits.TheConstants.{MOST_ROOM};
ghost use Rattle.grb_order.specs.Order.{room_of};
ghost use Rattle.grb_records.specs.Token.{IsOf};
ghost use Rattle.grb_call.specs.History.{calls_of};
ghost use Rattle.grb_call.specs.declared.call.Call.{Call};
ghost use Rattle.grb_results.specs.Kept.{IsSameBut, IsTableOf};
ghost use Rattle.grb_results.specs.Results.{IsTable};
ghost use Rattle.grb_pass.specs.Evaluated.{IsEvaluatedFor};
ghost use Rattle.grb_reader.specs.Known.{Knowing, known};
ghost use Rattle.grb_reader.specs.Laws.{Begins};

mod answers;
mod choosing;
mod exchange;
mod held;
mod succeeding;

use grb_editions::{Looked, Versions};
use grb_objects::Helps;
use grb_reader::Reader;
use grb_records::Records;
use grb_results::Table;
use std::alloc::{AllocError, Global};
use std::marker::Model;
use std::sync::Arc;

/// What a pass has evaluated of the calls that it knows: for some of them, by their numbers, what they left of their objects. An answer makes
/// what it needs and lacks, and nothing else. Results that other passes left are looked for before, where that pays, and dear ones are left
/// to the others.
#[derive(Drop)]
pub(crate) struct Evaluated<O: Helps> {
    table: Table,
    // Where one operation is made, and the calls that wait for others.
    bench: O,
    stack: Vec<u32>,
    versions: Arc<Versions>,
    // Whether the context has no other pass.
    alone: bool,
    // Which editions were looked at.
    looked: Looked,
    // How much work was done when the last call began, and when results were last left to the others.
    begun: u64,
    left: u64,
}

impl<O: Helps> Model for Evaluated<O> {
    ghost use Rattle.grb_results.specs.declared.table.Table.{Table};

    ghost Value = { Table };

    ghost view = { λ e. e.table };
}

impl<O: Helps> Evaluated<O> {
    /// No call is evaluated; operations are made on the bench. Takes no memory.
    pub(crate) fn open(
        alloc: Global,
        versions: Arc<Versions>,
        bench: O,
        alone: bool,
    ) -> Evaluated<O>
        ensures table { (cs : List Call) → IsTable cs result }
        ensures made { result.made ≡ 0 }
    {
        Evaluated {
            table: Table::open(alloc),
            bench,
            stack: Vec::new(alloc),
            versions,
            alone,
            looked: Looked::none(),
            begun: 0,
            left: 0,
        }
    }

    /// Begins to count the calls that are made.
    pub(crate) fn begin(&mut self)
        ensures begun { self.new ≡ record self.old { made = 0 } }
        ensures evaluated { (p : Knowing) → IsEvaluatedFor p self.old → IsEvaluatedFor p self.new }
    {
        self.table.begin();
        self.begun = self.table.work();
    }

    /// How many calls the last call of the pass made, as [`Pass::made`](crate::Pass::made) says.
    pub(crate) fn made(&self) -> u32
        ensures { result ≡ self.now.made }
    {
        self.table.made()
    }

    /// Learns the known calls that were not learnt. What they ended is let go, and where that was much, by editions too. `AllocError` where
    /// memory is refused; those learnt until then stay so.
    fn learn(&mut self, records: &Records, reader: &mut Reader) -> Result<(), AllocError>
        requires evaluated { IsEvaluatedFor reader.old self.old }
        requires of { All (IsOf records.now) reader.old.shown }
        ensures same { reader.new ≡ reader.old }
        ensures evaluated { IsEvaluatedFor reader.new self.new }
        ensures all { OnOk result (IsTableOf (calls_of (known reader.new)) self.new) }
        ensures made { self.new.made ≡ self.old.made }
        ensures memory { OnErr result (reader.old.settled < length (known reader.old)) }
    {
        let _few = reader.room();
        let known = reader.known() as usize;
        if self.table.learn_all(reader, records, known)? {
            self.versions.let_go(&self.table);
        }
        Ok(())
    }

    /// Keeps also the results that another pass keeps, of calls that both know; what it knows begins what this one knows. No entry is copied.
    /// Where memory is refused, it keeps fewer.
    pub(crate) fn take_over(
        &mut self,
        records: &Records,
        reader: &mut Reader,
        theirs: &Reader,
        other: &Evaluated<O>,
    )
        requires evaluated { IsEvaluatedFor reader.old self.old }
        requires other { IsEvaluatedFor theirs.now other.now }
        requires begins { Begins (known theirs.now) (known reader.old) }
        requires of { All (IsOf records.now) reader.old.shown }
        ensures same { reader.new ≡ reader.old }
        ensures evaluated { IsEvaluatedFor reader.new self.new }
        ensures made { self.new.made ≡ self.old.made }
    {
        if self.learn(records, reader).is_ok() {
            let number = (theirs.number() % 0x1_0000) as u16;
            let _ = self.table.take_new(&other.table, number);
        }
    }

    /// Makes blocks of the dear products that other passes make at the moment, and answers how many.
    pub(crate) fn help(&self) -> u32 {
        self.bench.help()
    }

    /// Drops all results. What others left is looked at again.
    pub(crate) fn release(&mut self)
        ensures table { (cs : List Call) → IsTable cs self.old → IsTable cs self.new }
        ensures same { IsSameBut self.old self.new }
    {
        self.table.release();
        self.looked.clear();
    }

    /// How many objects, results and calls were looked at so far without that one of them was made: by waits for all, in what other passes have
    /// evaluated, and in editions. No contract says more.
    pub(crate) fn looks(&self) -> u64 {
        self.table.looks().saturating_add(self.looked.compared())
    }

    /// How many entries the results have that are kept, and those of the editions. No contract says more.
    pub(crate) fn entries(&self) -> (u64, u64) {
        (self.table.entries(), self.versions.entries())
    }
}
