//! Laws of what the top call promises.

ghost use Rattle.std.specs.Prelude.{ℕ, List, Some};
ghost use Rattle.att_base.specs.Files.{Contents};
ghost use Rattle.device_inputs.specs.Setups.{SetupIn};
ghost use Rattle.attest_top.specs.Found.{FindsOneThing, HasOneResult};
ghost use Rattle.attest_top.specs.Lines.{Form};
ghost use Rattle.attest_top.specs.Plans.{command_plan};

use device::one_outcome;
use device_inputs::served_in_order;
use sched::one_scheduled_run;
use trace::{one_line_leaves, one_trace};

/// What a command finds over files and input that tell is one thing, and by the same names in the same order: only a
/// read that fails, or want of memory, may come in its place. Of `run` that are the files of the device, since its threads
/// may come in any order.
pub fn one_plan()
    ensures plans { (form : Form) → FindsOneThing form → (held : Contents) (text : List ℕ) → HasOneResult (command_plan form (Some held) (Some text)) }
    ensures setups { (device : List ℕ) (held : Contents) → HasOneResult (SetupIn device (Some held)) }
{
    one_outcome();
    one_scheduled_run();
    served_in_order();
    one_trace();
    one_line_leaves();
}
