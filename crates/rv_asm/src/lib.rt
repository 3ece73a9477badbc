//! The assembler: from a text to an executable, and the listing's text of an instruction.
//!
//! ```rust
//! use rv_asm::{assemble, show};
//!
//! let text = b".segment 0x80000000\n.entry main\nmain: li a0, 7\necall\n".as_slice();
//! let program = assemble(alloc, text)?;
//! show(&Instr::Ecall, &mut sink)?;
//! ```
//!
//! `specs/Assembled.antt` says what a text gives, `specs/First.antt` and `specs/Second.antt` what each pass does to a
//! line, `specs/Coded.antt` the bytes of a statement, and `specs/Shown.antt` the text of an instruction.
#![tactic(auto)]

mod assembling;
mod coding;
mod faults;
mod first;
mod labels;
mod laws;
mod second;
mod showing;
#[cfg(test)]
mod tests;

pub use assembling::assemble;
pub use executable::{Program, Segment};
pub use faults::AsmFault;
pub use laws::{labels_stand_at_their_bytes, programs_can_be_written, shown_texts_assemble};
pub use showing::{Line, put, put_text, show};
