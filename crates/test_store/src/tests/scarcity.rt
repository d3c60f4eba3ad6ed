//! Lists, successors and scripts that are refused memory, and how it is held back.
//!
//! No contract can say that memory is refused or that it is there, and a script cannot refuse any. So each of these tests holds back all
//! memory that its process could get, which is one of its own, and lets a call have so many bytes of it: none at first, then ever more,
//! until the call is not refused. None of them passes under `rt try`, whose allocator has bounds of its own.
mod calls;
mod hoards;
mod lists;
mod memory;
mod scripts;
mod shown;
mod successors;
