//! The cells for a pass's own records.
ghost use Rattle.std.specs.Prelude.{◌≡◌, ◌+◌, ◌<◌, ◌≤◌, ◌^◌, ◌⊎◌, max, IfOk, IfErr, OnOk};
ghost use Rattle.grb_records.specs.Token.{IsOf};
ghost use Rattle.grb_reader.specs.Putting.{next_after};

use grb_call::Call;
use grb_core::Refusal;
use grb_records::{Records, Token};

/// Where a pass puts its records: which of the cells of its row is next.
#[derive(Drop)]
pub struct RecordRow {
    next: u64,
}

impl RecordRow {
    /// A row of cells of which none has a record.
    pub fn open() -> RecordRow
        ensures { result.next ≡ 0 }
    {
        RecordRow { next: 0 }
    }

    /// Puts the call into the next of the `room` cells of the row, which is the one of this pass. `OutOfMemory` where memory for the record
    /// is refused: the cell is as before, and is next again. `Panic` where the cell did not take it: that cell is spent, as a cell with a
    /// record is; or where all are spent. Takes memory for the record alone, and does not wait.
    #[inline(always)]
    pub fn put(
        &mut self,
        records: &Records,
        pass: u32,
        room: u32,
        call: Call,
    ) -> Result<Token, Refusal>
        ensures put { IfOk result (λ token. (token.pass ≡ pass) × (token.index ≡ self.old.next) × (token.call ≡ call)) }
        ensures of { IfOk result (IsOf records.now) }
        ensures refused { IfErr result (λ refusal. (refusal ≡ Refusal.Panic) ⊎ (refusal ≡ Refusal.OutOfMemory)) }
        ensures next { self.new.next ≡ next_after room self.old.next result }
        ensures later { self.old.next ≤ self.new.next }
        ensures within { OnOk result (self.old.next < room) }
    {
        if self.next >= u64::from(room) {
            return Err(Refusal::Panic);
        }
        let put = records.put(pass, self.next, call);
        if !matches!(&put, Err(Refusal::OutOfMemory)) {
            self.next += 1;
        }
        put
    }

    /// Goes on after the cell at this index, unless it is past it already, as it is after [`RecordRow::put`].
    pub fn spend(&mut self, index: u64)
        requires { index < 2 ^ 48 }
        ensures next { self.new.next ≡ max self.old.next (index + 1) }
        ensures later { index < self.new.next }
    {
        self.next = self.next.max(index + 1);
    }
}
