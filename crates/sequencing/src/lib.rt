//! Words for definitions that are read from top to bottom: `do` over `Option` and over `Result`, a value where a test
//! holds, and a value unless there is a fault. The definitions stand in `specs/`; there is no code here but the law
//! that says what they mean.
#![tactic(auto)]

mod laws;

pub use laws::steps_in_order;
