//! The engine.

ghost use Rattle.std.specs.Prelude.{◌≡◌, ◌+◌, ◌<◌, ◌≤◌, ◌^◌, [], false, true, IfOk};
ghost use Rattle.vx_cells.specs.Cells.{CellsState};
ghost use Rattle.vx_course.specs.Course.{Course as CourseNumbers};
ghost use Rattle.vx_episode.specs.Organisation.{Organisation};
ghost use Rattle.vx_episode.specs.Show.{Shows};
ghost use Rattle.vx_flat.specs.Process.{Process};
ghost use Rattle.vx_paged.specs.Left.{Fits};
ghost use Rattle.vx_paged.specs.Placed.{IsPlacedAs};
ghost use Rattle.vx_pipe.specs.Left.{IsPlayable, IsShown, PlaysPlaced, organisation_of, registers_of};
ghost use Rattle.vx_pipe.specs.Turning.{course_of, machine_of};
ghost use Rattle.vx_serve.specs.Stamps as banks;
ghost use Rattle.vx_serve.specs.Stamps.{AreBy};
ghost use Rattle.vx_tables.specs.Residency.{Residency};
ghost use Rattle.vx_tlb.specs.Kept as tlb;

use crate::counts::Counts;
use crate::course::Course;
use crate::engine::Engine;
use crate::laws::episodes_are_played;
use crate::turning::run;
use std::alloc::{AllocError, Global};
use std::marker::Model;
use vx_base::{Fault, Options};
use vx_cells::Cells;
use vx_decode::KnownWords;
use vx_episode::Ended;
use vx_hart::{Arch, Executor};
use vx_look::{DataLookUps, FetchLookUps};
use vx_paged::{Paged, shown_memory_is_alike, walks_leave_pages};
use vx_serve::BankTimes;
use vx_vaddr::AccessList;

/// An engine with one instruction in flight.
#[derive(Debug, Drop)]
pub struct Pipe {
    engine: Engine,
    words: KnownWords,
}

impl Model for Pipe {
    ghost use Rattle.vx_pipe.specs.Pipes.{PipeState, state_of};

    ghost Value = { PipeState };

    ghost view = { λ p. state_of p.engine };
}

/// The course of an episode that begins at a cycle.
fn begun_at(cycle: u64) -> Course
    requires { cycle < 2 ^ 63 }
    ensures { course_of result ≡ record { retired = cycle; begun = cycle + 1; commits = 0; completed = 0; changed = false } }
{
    Course {
        retired: cycle,
        begun: cycle + 1,
        completed: 0,
        reached: 0,
        changed: false,
    }
}

/// Begins an episode at a cycle: nothing is kept of what was before.
fn begin(engine: &mut Engine, cycle: u64)
    requires { cycle < 2 ^ 63 }
    ensures loads { tlb.StandsFor engine.new.loads [] }
    ensures fetches { tlb.StandsFor engine.new.fetches [] }
    ensures banks { (machine : Organisation) → machine ≡ machine_of engine.old → banks.StandsFor engine.new.banks machine [] }
    ensures by { AreBy 0 engine.new.banks.stamps }
    ensures course { course_of engine.new.course ≡ record { retired = cycle; begun = cycle + 1; commits = 0; completed = 0; changed = false } }
    ensures machine { machine_of engine.new ≡ machine_of engine.old }
{
    engine.loads.empty();
    engine.fetches.empty();
    engine.banks.clear();
    engine.course = begun_at(cycle);
}

impl Pipe {
    /// An engine of the organisation that options name, which has counted nothing. It takes all its memory here.
    pub fn new(alloc: Global, options: &Options) -> Result<Pipe, AllocError>
        requires { options.now.window ≡ 1 }
        ensures machine { IfOk result (λ p. p.machine ≡ organisation_of options.now) }
        ensures counts { IfOk result (λ p. p.counts ≡ record { retired = 0; commits = 0; dirtied = false }) }
    {
        let words = KnownWords::new(alloc)?;
        let executor = Executor::new(alloc)?;
        let loads = DataLookUps::new(alloc)?;
        let fetches = FetchLookUps::new(alloc)?;
        Ok(Pipe {
            engine: Engine {
                executor,
                loads,
                fetches,
                banks: BankTimes::new(options.banks, options.bank_time),
                list: AccessList::new(),
                course: begun_at(0),
                fault: Fault {
                    cause: 0,
                    tval: 0,
                    vstart: 0,
                },
                lanes: options.lanes,
                bank_time: options.bank_time,
            },
            words,
        })
    }

    /// Plays an episode of the process that registers and physical memory show.
    pub fn episode<C: Cells>(
        &mut self,
        cells: &mut C,
        arch: &mut Arch,
        memory: &mut Paged,
        root: u32,
        until: u64,
    ) -> Ended
        requires shown { IsShown (registers_of arch.old) (C.state cells.old) root memory.old }
        requires fits { Fits memory.old (C.state cells.old) }
        requires cycle { (C.state cells.old).cycle ≤ 2 ^ 42 }
        requires until { until ≤ 2 ^ 42 }
        ensures plays { (residency : Residency) (process : Process) → Shows (registers_of arch.old) (C.state cells.old) root residency process.state → IsPlacedAs memory.old residency → IsPlayable process
            → PlaysPlaced (record { machine = self.old.machine; cycle = (C.state cells.old).cycle; residency = residency; root = root; has_vectors = true }) until process (C.state cells.old) (C.state cells.new) (registers_of arch.new) result self.new.counts memory.new }
        ensures memory { memory.new ≡ memory.old }
        ensures machine { self.new.machine ≡ self.old.machine }
        ensures later { (C.state cells.old).cycle + self.new.counts.retired < (C.state cells.new).cycle }
        ensures bounded { (C.state cells.new).cycle ≤ 2 ^ 43 }
    {
        episodes_are_played();
        shown_memory_is_alike();
        walks_leave_pages();
        let _pages = memory.pages();
        let cycle = cells.now();
        begin(&mut self.engine, cycle);
        let over = run(
            &mut self.engine,
            &mut self.words,
            cells,
            arch,
            memory,
            root,
            until,
        );
        cells.advance(over.clock);
        over.ended
    }

    /// What it counted in the last episode.
    pub fn counts(&self) -> Counts
        ensures { result ≡ self.now.counts }
    {
        let course = &self.engine.course;
        Counts {
            retired: course.completed,
            commits: course.completed + course.reached,
            dirtied: course.changed,
        }
    }
}
