// Widths and places of the record of a phase, each named once: a place is the one before it and the width of what stands there.
use codec::layout::{ENTRY, MESSAGE, U8, U16, U32, VIEW};
use protocol::limits::VIEWS;

// The head: kind u8, view u8, request u16.
pub const HEAD_KIND_AT: usize = 0;

pub const HEAD_VIEW_AT: usize = HEAD_KIND_AT + U8;

pub const HEAD_REQUEST_AT: usize = HEAD_VIEW_AT + U8;

pub const HEAD: usize = HEAD_REQUEST_AT + U16;

// A tally: servers heard u32, entry, differ u8, 3 zero.
pub const HEARD_AT: usize = 0;

pub const BEST_AT: usize = HEARD_AT + U32;

pub const DIFFER_AT: usize = BEST_AT + ENTRY;

pub const TALLY_SPARE_AT: usize = DIFFER_AT + U8;

pub const TALLY_SPARE: usize = 3;

pub const TALLY: usize = TALLY_SPARE_AT + TALLY_SPARE;

// The head, then a tally for each view.
pub const PHASE: usize = HEAD + (VIEWS as usize) * TALLY;

// What is asked: an answer, then the view that it is tagged with.
pub const ASKED: usize = MESSAGE + VIEW;
