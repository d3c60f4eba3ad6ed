//! The calls that passes recorded, each written once and then read by all.
ghost use Rattle.std.specs.Prelude.{◌≡◌, ◌↔◌, ◌⊎◌, ◌<◌, ◌≤◌, length, All, None, Some, Err, MatchOption, IfOk, IfErr, IfSome, IsTrue};
ghost use Rattle.once_cell.specs.Once.{cell_name};

use crate::token::Token;
use grb_call::Call;
use grb_core::Refusal;
use once_cell::race::OnceBox;
use std::alloc::{AllocError, Global};
use std::marker::Model;

type Cell = OnceBox<Call>;

/// The cells of one pass.
#[derive(Drop)]
struct Row {
    cells: Vec<Cell>,
}

impl Model for Row {
    ghost use Rattle.grb_records.specs.Token.{Cells};

    ghost Value = { Cells };

    ghost view = { λ r. r.cells.items };
}

impl Row {
    /// A row of `room` empty cells. `AllocError` where memory is refused; then nothing is made.
    fn open(alloc: Global, room: u32) -> Result<Row, AllocError>
        ensures { IfOk result (λ row. length row ≡ room) }
    {
        let mut cells = Vec::with_capacity(alloc, room as usize)?;
        for _ in 0..room {
            cells.push_reserved(OnceBox::new(alloc));
        }
        Ok(Row { cells })
    }
}

/// The records of all passes: a row of cells for each.
#[derive(Drop)]
pub struct Records {
    rows: Vec<Row>,
    alloc: Global,
}

impl Model for Records {
    ghost use Rattle.grb_records.specs.Token.{Shelf};

    ghost Value = { Shelf };

    ghost view = { λ r. r.rows.items };
}

impl Records {
    ghost use Rattle.grb_records.specs.Token.{cell_at, HasRows, IsOf, IsSameRecord};

    /// No records, and a row of `room` cells for each pass. All memory is taken here; `AllocError` where it is refused; then nothing is
    /// made.
    pub fn open(alloc: Global, passes: u32, room: u32) -> Result<Records, AllocError>
        ensures { IfOk result (HasRows passes room) }
    {
        let mut rows = Vec::with_capacity(alloc, passes as usize)?;
        for _ in 0..passes {
            rows.push_reserved(Row::open(alloc, room)?);
        }
        Ok(Records { rows, alloc })
    }

    /// The cell at the index in the row of the pass, if there is one.
    fn cell(&self, pass: u32, at: u64) -> Option<&Cell>
        ensures { MatchOption result (cell_at self.now pass at ≡ None) (λ cell. cell_at self.now pass at ≡ Some (cell_name cell.now)) }
    {
        let row = self.rows.get(pass as usize)?;
        row.cells.get(at as usize)
    }

    /// Puts a call of the pass as the record at this index of its row, from 0. `Panic` where there is no such pass or index, or the cell
    /// did not take the call since it has a record; `OutOfMemory` where memory for the record is refused, and then the cell is as
    /// before. Nothing else is refused; that a cell without a record takes one where there is memory, no contract says. Takes memory
    /// for the record alone, and does not wait.
    #[inline(always)]
    pub fn put(&self, pass: u32, at: u64, call: Call) -> Result<Token, Refusal>
        ensures put { IfOk result (λ token. (token.pass ≡ pass) × (token.index ≡ at) × (token.call ≡ call)) }
        ensures of { IfOk result (IsOf self.now) }
        ensures outside { cell_at self.now pass at ≡ None → result ≡ Err Refusal.Panic }
        ensures refused { IfErr result (λ refusal. (refusal ≡ Refusal.Panic) ⊎ (refusal ≡ Refusal.OutOfMemory)) }
    {
        let Some(cell) = self.cell(pass, at) else {
            return Err(Refusal::Panic);
        };
        let Ok(boxed) = Box::new(self.alloc, call) else {
            return Err(Refusal::OutOfMemory);
        };
        let mut note = cell.note();
        match cell.set_as(boxed, &mut note) {
            Ok(()) => Ok(Token {
                pass,
                index: at,
                note,
            }),
            Err(_untaken) => Err(Refusal::Panic),
        }
    }

    /// The record of the pass at this index, and a token of it; `None` where it is not shown. Takes no memory and does not wait.
    pub fn show(&self, pass: u32, index: u64) -> Option<(&Call, Token)>
        ensures token { IfSome result (λ shown. (shown.1.pass ≡ pass) × (shown.1.index ≡ index)) }
        ensures call { IfSome result (λ shown. shown.0.now ≡ shown.1.call) }
        ensures of { IfSome result (λ shown. IsOf self.now shown.1) }
    {
        let cell = self.cell(pass, index)?;
        let mut note = cell.note();
        let call = cell.get_as(&mut note)?;
        Some((call, Token { pass, index, note }))
    }

    /// The token's call, always. Takes no memory and does not wait. The token is as before: a note is read through a `&mut` alone.
    pub fn call_of(&self, token: &mut Token) -> &Call
        requires { IsOf self.now token.old }
        ensures call { result.now ≡ token.old.call }
        ensures same { token.new ≡ token.old }
    {
        match self.cell(token.pass, token.index) {
            Some(cell) => match cell.get_as(&mut token.note) {
                Some(call) => call,
                None => unreachable!(),
            },
            None => unreachable!(),
        }
    }

    /// Whether both are tokens of one record. Then they have one call. Takes no memory and does not wait.
    pub fn same(&self, a: &mut Token, b: &mut Token) -> bool
        requires a { IsOf self.now a.old }
        requires b { IsOf self.now b.old }
        ensures record { IsTrue result ↔ IsSameRecord a.old b.old }
        ensures call { IsTrue result → a.old.call ≡ b.old.call }
        ensures same { (a.new ≡ a.old) × (b.new ≡ b.old) }
    {
        if a.pass != b.pass || a.index != b.index {
            return false;
        }
        a.note.compare(b.note.again());
        true
    }

    /// The same of two tokens that are known to be of one record: they have one call. It compares neither passes nor indices, since what a
    /// cell was known to hold, it holds for good. Takes no memory and does not wait.
    pub fn agree(&self, a: &mut Token, b: &mut Token)
        requires a { IsOf self.now a.old }
        requires b { IsOf self.now b.old }
        requires record { IsSameRecord a.old b.old }
        ensures call { a.old.call ≡ b.old.call }
        ensures same { (a.new ≡ a.old) × (b.new ≡ b.old) }
    {
        a.note.compare(b.note.again());
    }
}
