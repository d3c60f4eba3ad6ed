//! A bench, on which one operation is made of single objects.
ghost use Rattle.std.specs.Prelude.{◌≡◌};
ghost use Rattle.grb_call.specs.Store.{empty_store};

use crate::operations::operate;
use crate::reading::reply_from;
use grb_call::{Call, Object, Reply};
use grb_core::Diagonal;
use grb_jobs::Board;
use grb_maps::diagonal_matrix;
use grb_objects::{Helps, Operates, SharedContent, hold, take};
use grb_sparse::{SparseMatrix, SparseVector};
use grb_states::Objects;
use std::alloc::{AllocError, Global};
use std::marker::Model;
use std::sync::Arc;

/// Where dear products are made together with others, if they are.
fn lent_board(board: &Option<Arc<Board>>) -> Option<&Board> {
    match board {
        Some(board) => Some(board),
        None => None,
    }
}

/// The same board for one more bench, if there is one.
fn share_of(board: &Option<Arc<Board>>) -> Option<Arc<Board>> {
    match board {
        Some(board) => Arc::try_clone(board).ok(),
        None => None,
    }
}

/// Places for the objects of one operation, by their numbers: a store without shapes, which holds what an operation reads as long as it is
/// made, and nothing between two of them. Places are kept.
#[derive(Drop)]
pub struct Bench {
    objects: Objects,
    // Where dear products are made together with others, if they are. What the objects store does not depend on it.
    board: Option<Arc<Board>>,
}

impl Model for Bench {
    ghost use Rattle.grb_call.specs.Store.{Store};
    ghost use Rattle.grb_states.specs.Objects.{store_of};

    ghost Value = { Store };

    ghost view = { λ b. store_of b.objects };
}

impl Bench {
    /// A bench with nothing on it. Takes no memory.
    pub fn new(alloc: Global) -> Bench
        ensures { result ≡ empty_store }
    {
        Bench {
            objects: Objects {
                matrices: Vec::new(alloc),
                vectors: Vec::new(alloc),
            },
            board: None,
        }
    }
}

impl Operates for Bench {
    ghost on = { λ s. s };

    /// Puts what an object holds at its number. `AllocError` where memory for its place is refused.
    fn hold(&mut self, object: Object, content: SharedContent) -> Result<(), AllocError> {
        match object {
            Object::Matrix(a) => match content {
                SharedContent::Matrix(matrix) => hold(&mut self.objects.matrices, a, matrix),
                SharedContent::Vector(_) => Ok(()),
            },
            Object::Vector(v) => match content {
                SharedContent::Matrix(_) => Ok(()),
                SharedContent::Vector(vector) => hold(&mut self.objects.vectors, v, vector),
            },
        }
    }

    /// Makes the operation, which the objects on the bench do not refuse: its output is made of what stands there, and put last.
    /// `AllocError` where memory is refused; then the objects hold what they held.
    fn operate(&mut self, call: &Call) -> Result<(), AllocError> {
        let board = lent_board(&self.board);
        operate(&mut self.objects, board, call)
    }

    /// Takes what the object holds off the bench, if it is there. Takes no memory.
    fn take(&mut self, object: Object) -> Option<SharedContent> {
        match object {
            Object::Matrix(a) => match take(&mut self.objects.matrices, a) {
                Some(matrix) => Some(SharedContent::Matrix(matrix)),
                None => None,
            },
            Object::Vector(v) => match take(&mut self.objects.vectors, v) {
                Some(vector) => Some(SharedContent::Vector(vector)),
                None => None,
            },
        }
    }

    /// The square matrix that has the entries of `v` on a diagonal.
    fn diagonal(
        &self,
        alloc: Global,
        d: Diagonal,
        v: &SparseVector,
    ) -> Result<SparseMatrix, AllocError> {
        diagonal_matrix(alloc, d, v)
    }

    /// The reply to a call that only reads the object which holds this.
    fn reply_from(&self, content: &SharedContent, call: &Call) -> Reply {
        reply_from(content, call)
    }
}

impl Helps for Bench {
    /// A bench with nothing on it, and a board for dear products of two matrices, if there is to be one.
    fn open(alloc: Global, together: bool) -> Bench {
        let mut bench = Bench::new(alloc);
        if together {
            bench.board = Arc::new(alloc, Board::open(alloc)).ok();
        }
        bench
    }

    /// One more of the same board.
    fn beside(&self) -> Bench {
        let mut bench = Bench::new(*self.objects.matrices.allocator());
        bench.board = share_of(&self.board);
        bench
    }

    /// Makes blocks of the dear products that are made at the moment on other benches of the same board, and answers how many.
    fn help(&self) -> u32 {
        match &self.board {
            Some(board) => board.help(),
            None => 0,
        }
    }

    /// How many blocks of dear products were made so far, on benches of the same board.
    fn blocks(&self) -> u64 {
        match &self.board {
            Some(board) => board.made(),
            None => 0,
        }
    }
}
