//! Which blocks a measurement locks now, and which of its steps comes next.
//!
//! A plan is small: it keeps what the last pass has come to, and no history. Its contracts say each thing
//! twice, by the plan's own state and by any history that has led to it.
//!
//! ```rust
//! use lock_plan::{Discipline, Plan, PlanStep, Range, Ranges};
//!
//! let list = [Range { first: 3, attested: 1 }, Range { first: 5, attested: 1 }];
//! let ranges = Ranges::new(&list).ok_or("no such ranges")?; // blocks 3 and 5 are attested
//! let mut plan = Plan::new(ranges);
//! plan.start(Discipline::Dec);
//! plan.copied();
//! let freed = !plan.is_locked(3) && plan.is_locked(5);
//! let again = plan.next() == PlanStep::Copy(5);
//! ```
#![tactic(auto)]

mod bits;
mod laws;
mod plans;
mod ranges;
mod steps;
#[cfg(test)]
mod tests;

pub use history::{Discipline, Range};
pub use laws::{order_gives_next_step, others_leave_plan};
pub use plans::Plan;
pub use ranges::Ranges;
pub use steps::PlanStep;
