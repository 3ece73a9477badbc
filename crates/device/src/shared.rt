//! A device whose actors run on threads.

use crate::device::Device;
use crate::outcomes::{AppEnd, Outcome};
use crate::passes::Passes;
use crate::slots::Slot;
use crate::threads::run_all;
use app_thread::runs_compose;
use att_base::Gate;
use chronicle::own_entries;
use shared_mem::{Pass, Refused, SharedMem};
use std::alloc::Global;
use std::marker::Model;
use std::sync::Wait;
use std::thread::Threads;

/// A device on which no turn was made, and whose actors may run on threads. Clauses see it as the `Setup` that it
/// begins with.
#[derive(Drop)]
pub struct SharedDevice {
    memory: SharedMem,
    pass: Pass,
    slots: Vec<Slot>,
    passes: Passes,
    key: Vec<u8>,
    // a block long
    buffer: Vec<u8>,
    // room for what the applications have come to
    apps: Vec<AppEnd>,
}

impl Model for SharedDevice {
    ghost use Rattle.std.specs.Prelude.{◌≡◌, ◌≤◌, [], length, vec_capacity};
    ghost use Rattle.device.specs.Setups.{Setup};
    ghost use Rattle.device.specs.Keeping.{setup_kept};
    ghost use Rattle.device.specs.Threads.{IsShared};

    ghost Value = { Setup };

    ghost view = { λ d. setup_kept d.memory.world d.key.items d.slots.items d.passes.challenges.items };

    ghost invariant = { λ d. IsShared d.memory d.pass d.key.items d.slots.items d.passes
        × (length d.buffer.items ≡ d.memory.world.layout.size)
        × (d.apps.items ≡ []) × (length d.slots.items ≤ vec_capacity d.apps) };
}

impl Device {
    ghost use Rattle.std.specs.Prelude.{◌≡◌, IfOk, IfErr};
    ghost use Rattle.device.specs.Turns.{first_state};

    /// The device for threads. No turn may have been made on it. Only want of memory refuses it, and then it is handed
    /// back as it was.
    pub fn share(self, alloc: Global) -> Result<SharedDevice, Refused<Device>>
        requires { self.state ≡ first_state self.setup }
        ensures ok { IfOk result (λ shared. shared ≡ self.setup) }
        ensures err { IfErr result (λ refused. refused.value ≡ self) }
    {
        let Device {
            core,
            slots,
            passes,
            key,
            buffer,
            apps,
        } = self;
        let actors = 1 + slots.len() as u32;
        match SharedMem::new(alloc, core, actors) {
            Ok((memory, pass)) => Ok(SharedDevice {
                memory,
                pass,
                slots,
                passes,
                key,
                buffer,
                apps,
            }),
            Err(Refused { value: core }) => Err(Refused {
                value: Device {
                    core,
                    slots,
                    passes,
                    key,
                    buffer,
                    apps,
                },
            }),
        }
    }
}

impl SharedDevice {
    ghost use Rattle.std.specs.Prelude.{◌≡◌};
    ghost use Rattle.device.specs.Turns.{AllDone};
    ghost use Rattle.device.specs.Runs.{IsRunOf, entries_of};
    ghost use Rattle.device.specs.Outcomes.{AreAppEnds, ArePassEnds, acts_of};
    ghost use Rattle.device.specs.Threads.{AreWaitsIn, AreWaitsOf};

    /// Runs the measurer and all applications at once, each over a port of its own, until each is over or the history is
    /// full, and says what the run has come to.
    ///
    /// The history is one of a whole run; of the order in which the actors came nothing is said. Where no thread can be
    /// made, actors run one after another. The gate is told of each entry and of each wait, between two turns of the lock.
    /// It takes no memory. It may wait for ever, where a block stays locked.
    pub fn run_threads<R: Threads + Wait + Sync, G: Gate + Sync>(self, rt: &R, gate: &G) -> Outcome
        ensures world { result.chronicle.world ≡ self.world }
        ensures run { IsRunOf self result.chronicle.entries }
        ensures apps { AreAppEnds self.programs result.chronicle.entries result.apps }
        ensures waits { AreWaitsIn self result.chronicle.entries result.apps }
        ensures passes { ArePassEnds self result.chronicle.entries (acts_of (entries_of result.chronicle.entries 0))
            self.challenges result.passes }
    {
        self.run(rt, gate).finish()
    }

    // Runs all actors at once until all are done, and is a device of one thread again.
    fn run<R: Threads + Wait + Sync, G: Gate + Sync>(self, rt: &R, gate: &G) -> Device
        ensures setup { result.setup ≡ self }
        ensures done { AllDone result.setup result.state }
        ensures waits { AreWaitsOf result.setup result.state }
    {
        own_entries();
        runs_compose();
        let SharedDevice {
            memory,
            pass,
            mut slots,
            mut passes,
            key,
            mut buffer,
            apps,
        } = self;
        let pass = run_all(
            rt,
            &memory,
            pass,
            &mut slots,
            &mut passes,
            &key,
            &mut buffer,
            gate,
        );
        let core = memory.close(pass);
        Device {
            core,
            slots,
            passes,
            key,
            buffer,
            apps,
        }
    }
}

/// A device may be made here, shared in another thread and run in a third.
fn crosses<X: Send>(_value: &X) {}

fn devices_cross(device: &Device, shared: &SharedDevice) {
    crosses(device);
    crosses(shared);
}
