ghost use Rattle.std.specs.Prelude.{◌≡◌, ◌<◌, ◌^◌, ◌∷◌, [], IfOk, None};
ghost use Rattle.vx_machine.specs.Accounts.{account_alone};
ghost use Rattle.vx_machine.specs.Report.{report};
ghost use Rattle.vx_system.specs.Solo.{GoesOn, RunsAlone};

use crate::report::{ProcessReport, report};
use std::alloc::{AllocError, Global};
use vx_alone::Alone;
use vx_base::Bytes;
use vx_machine::{Measure, Stop};

/// Steps a process alone until it has ended, or has completed so many instructions.
pub fn run_alone(process: &mut Alone, budget: u64) -> Stop
    requires unbegun { process.old.count ≡ 0 }
    requires running { process.old.over ≡ None }
    requires budget { budget < 2 ^ 63 }
    ensures { RunsAlone budget process.old process.new result }
{
    while process.count() < budget {
        go_on(process, budget - process.count());
        if process.over().is_some() {
            return Stop::Done;
        }
    }
    Stop::Spent
}

/// Takes steps, up to `most`: the last of them may be a service.
fn go_on(process: &mut Alone, most: u64)
    requires running { process.old.over ≡ None }
    requires some { 0 < most }
    ensures { GoesOn most process.old process.new }
{
    if process.advance(most) {
        process.serve();
    }
}

/// The report's bytes of a process alone that stopped so.
pub fn report_alone(alloc: Global, process: &Alone, stop: Stop) -> Result<Bytes, AllocError>
    ensures { IfOk result (λ text. text ≡ report (account_alone process.now ∷ []) process.now.count (Measure.Instructions) stop) }
{
    let arch = process.arch();
    let told = ProcessReport {
        over: process.over(),
        pc: arch.pc,
        vstart: arch.v.vstart(),
        instructions: process.count(),
        costs: None,
        output: process.output(),
    };
    report(alloc, &told, process.count(), Measure::Instructions, stop)
}
