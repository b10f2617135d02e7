ghost use Rattle.std.specs.Prelude.{◌≡◌, ◌+◌, ◌-◌, ◌≤◌, ◌<◌, ◌^◌, ◌∷◌, [], ℕ, min, IfOk, IfErr, OnOk, None, Some, option_map, unwrap_or, if◌then◌else◌};
ghost use Rattle.vx_cells.specs.Cells.{CellsState};
ghost use Rattle.vx_machine.specs.Accounts.{account_of};
ghost use Rattle.vx_machine.specs.Machine.{Machine, after_ended, needed_frames, round, served, switch_cycles, taken};
ghost use Rattle.vx_machine.specs.Report.{report};
ghost use Rattle.vx_paged.specs.Left.{Fits};
ghost use Rattle.vx_pipe.specs.Left.{end_of};
ghost use Rattle.vx_system.specs.Runs.{
  Boots,
  HasPlayed,
  IsAsking,
  IsSystem,
  Moves,
  RefusesBoot,
  Runs,
  StandsFor,
  slice_given,
};

use crate::boot::BootFault;
use crate::report::{ProcessReport, report};
use crate::timing::{SERVICE, SWITCH, words_held};
use std::alloc::{AllocError, Global};
use std::marker::Model;
use vx_base::{Bytes, Options};
use vx_cells::Cells;
use vx_episode::Ended;
use vx_flat::{End, runs_are_well_formed};
use vx_hart::{Arch, serve};
use vx_image::Image;
use vx_machine::{Costs, Measure, Stop, accounts_are_true};
use vx_paged::{Paged, boot_pages, shown_memory_is_alike, tables_stay, walks_leave_pages};
use vx_pending::{nothing_else_differs, pending_bytes_are_not_read, steps_are_alike};
use vx_pipe::Pipe;
use vx_scalar::Regs;
use vx_vstate::VState;

/// A system with one process, and one instruction of it in flight at a time. The process's memory is in physical memory, which
/// each call is handed.
#[derive(Debug, Drop)]
pub struct System {
    arch: Arch,
    memory: Paged,
    output: Vec<u8>,
    count: u64,
    over: Option<End>,
    pipe: Pipe,
    options: Options,
    /// The cycle that it is.
    clock: u64,
    /// The process's cycles so far.
    cycles: u64,
    /// The cycle at which the process's slice ends, while it has one.
    slice_end: Option<u64>,
    /// The process has had a slice.
    has_run: bool,
}

impl Model for System {
    ghost use Rattle.vx_pipe.specs.Left.{registers_of};
    ghost use Rattle.vx_system.specs.Kept.{IsKept};
    ghost use Rattle.vx_system.specs.Runs.{SystemState, settings_of};

    ghost Value = { SystemState };

    ghost view = { λ s. record {
      settings = settings_of s.options;
      registers = registers_of s.arch;
      placement = s.memory;
      output = s.output.items;
      count = s.count;
      over = s.over;
      cycles = s.cycles;
      clock = s.clock;
      slice_end = s.slice_end;
      has_run = s.has_run;
    } };

    ghost invariant = { IsKept };
}

impl System {
    /// The system of an image, at cycle 0, with its page tables in frame 0 and those behind it, and its pages behind these. It
    /// takes all the memory of the run here. There must be enough frames, of those that the options give.
    pub fn boot<C: Cells>(
        alloc: Global,
        image: &Image,
        options: &Options,
        cells: &mut C,
    ) -> Result<System, BootFault>
        requires window { options.now.window ≡ 1 }
        requires cycle { (C.state cells.old).cycle ≡ 0 }
        ensures booted { IfOk result (Boots options.now image.now (C.state cells.old) (C.state cells.new)) }
        ensures refused { IfErr result (RefusesBoot options.now image.now (C.state cells.old) (C.state cells.new)) }
    {
        has_room(alloc, image, options, cells)?;
        Ok(System::boot_in(alloc, image, options, cells)?)
    }

    /// The same where there is room.
    #[tactic(auto, unfolding(vx_flat::specs::Boot::booted))]
    fn boot_in<C: Cells>(
        alloc: Global,
        image: &Image,
        options: &Options,
        cells: &mut C,
    ) -> Result<System, AllocError>
        requires window { options.now.window ≡ 1 }
        requires cycle { (C.state cells.old).cycle ≡ 0 }
        requires room { needed_frames image.now ≤ min options.now.frames (C.state cells.old).frames }
        ensures booted { IfOk result (Boots options.now image.now (C.state cells.old) (C.state cells.new)) }
    {
        runs_are_well_formed();
        shown_memory_is_alike();
        let v = VState::new(alloc, options.vlen)?;
        let output = Vec::with_capacity(alloc, 1 << 20)?;
        let pipe = Pipe::new(alloc, options)?;
        let placement = boot_pages(alloc, cells, image, 0)?;
        let arch = Arch {
            regs: Regs::first(),
            pc: image.entry(),
            v,
        };
        Ok(System {
            arch,
            memory: Paged::of(placement),
            output,
            count: 0,
            over: None,
            pipe,
            options: *options,
            clock: 0,
            cycles: 0,
            slice_end: None,
            has_run: false,
        })
    }

    /// Runs until the process has ended, or until the clock is at the budget at a boundary.
    pub fn run<C: Cells>(&mut self, cells: &mut C) -> Stop
        requires stands { IsSystem self.old (C.state cells.old) }
        ensures { (m : Machine) → StandsFor self.old (C.state cells.old) m → Runs self.old self.new (C.state cells.new) m result }
    {
        while self.over.is_none() {
            if self.clock >= self.options.budget {
                return Stop::Spent;
            }
            self.round(cells);
        }
        Stop::Done
    }

    /// The process goes on in its slice, or is given one. Gives the slice's end.
    fn take<C: Cells>(&mut self, cells: &mut C) -> u64
        requires stands { IsSystem self.old (C.state cells.old) }
        requires unspent { self.old.clock < self.old.settings.budget }
        ensures moves { (m : Machine) → StandsFor self.old (C.state cells.old) m → Moves self.old self.new (C.state cells.new) m (taken self.old.settings m) }
        ensures end { result ≡ unwrap_or self.new.slice_end 0 }
        ensures over { self.new.over ≡ self.old.over }
        ensures later { self.old.clock ≤ self.new.clock }
        ensures clock { self.new.clock ≤ 2 ^ 41 }
        ensures until { result ≤ 2 ^ 41 }
    {
        match self.slice_end {
            Some(end) => end,
            None => self.give(cells),
        }
    }

    /// The process is given a slice; the first costs a switch. Gives the slice's end.
    fn give<C: Cells>(&mut self, cells: &mut C) -> u64
        requires cycle { (C.state cells.old).cycle ≡ self.old.clock }
        requires unspent { self.old.clock < self.old.settings.budget }
        ensures given { self.new ≡ slice_given self.old }
        ensures cells { C.state cells.new ≡ record (C.state cells.old) { cycle = self.new.clock } }
        ensures end { result ≡ self.new.clock + self.new.settings.slice }
        ensures clock { self.new.clock ≤ 2 ^ 41 }
        ensures until { result ≤ 2 ^ 41 }
    {
        let clock = self.clock + self.switching();
        cells.advance(clock);
        let end = clock + self.options.slice;
        self.clock = clock;
        self.has_run = true;
        self.slice_end = Some(end);
        end
    }

    /// The cycles that it costs to take the process.
    fn switching(&self) -> u64
        ensures { result ≡ (if self.now.has_run then 0 else switch_cycles) }
    {
        if self.has_run { 0 } else { SWITCH }
    }

    /// A round: an episode, and the service that ends it.
    fn round<C: Cells>(&mut self, cells: &mut C)
        requires stands { IsSystem self.old (C.state cells.old) }
        requires running { self.old.over ≡ None }
        requires unspent { self.old.clock < self.old.settings.budget }
        ensures round { (m : Machine) → StandsFor self.old (C.state cells.old) m → Moves self.old self.new (C.state cells.new) m (round self.old.settings m) }
        ensures settings { self.new.settings ≡ self.old.settings }
        ensures later { self.old.clock < self.new.clock }
    {
        let until = self.take(cells);
        let ended = self.go(cells, until);
        self.finish(cells, ended);
    }

    /// An episode of the process.
    fn go<C: Cells>(&mut self, cells: &mut C, until: u64) -> Ended
        requires stands { IsSystem self.old (C.state cells.old) }
        requires running { self.old.over ≡ None }
        requires clock { self.old.clock ≤ 2 ^ 41 }
        requires until { until ≤ 2 ^ 41 }
        ensures played { (m : Machine) → StandsFor self.old (C.state cells.old) m → HasPlayed self.old self.new (C.state cells.new) until result m }
        ensures bounded { self.new.clock ≤ 2 ^ 43 }
        ensures later { self.old.clock < self.new.clock }
    {
        accounts_are_true();
        let start = self.clock;
        let ended = self
            .pipe
            .episode(cells, &mut self.arch, &mut self.memory, 0, until);
        let counts = self.pipe.counts();
        let clock = cells.now();
        self.count += counts.retired;
        self.clock = clock;
        self.cycles += clock - start;
        self.over = end_of(ended);
        ended
    }

    /// What follows an episode that ended so: the slice is over, or a service is done.
    fn finish<C: Cells>(&mut self, cells: &mut C, ended: Ended)
        requires fits { Fits self.old.placement (C.state cells.old) }
        requires cycle { (C.state cells.old).cycle ≡ self.old.clock }
        requires clock { self.old.clock ≤ 2 ^ 43 }
        ensures finished { (m : Machine) → StandsFor self.old (C.state cells.old) m → (ended ≡ Ended.Service → IsAsking m.process) → Moves self.old self.new (C.state cells.new) m (after_ended m ended) }
        ensures later { self.old.clock ≤ self.new.clock }
    {
        match ended {
            Ended::Slice => self.slice_end = None,
            Ended::Service => self.serve(cells),
            Ended::Away(_, _) => {}
            Ended::Vector => {}
            Ended::Faulted(_) => {}
        }
    }

    /// The service that the process asks for.
    fn serve<C: Cells>(&mut self, cells: &mut C)
        requires fits { Fits self.old.placement (C.state cells.old) }
        requires cycle { (C.state cells.old).cycle ≡ self.old.clock }
        requires clock { self.old.clock ≤ 2 ^ 43 }
        ensures served { (m : Machine) → StandsFor self.old (C.state cells.old) m → IsAsking m.process → Moves self.old self.new (C.state cells.new) m (served m) }
        ensures later { self.old.clock ≤ self.new.clock }
    {
        accounts_are_true();
        nothing_else_differs();
        pending_bytes_are_not_read();
        runs_are_well_formed();
        shown_memory_is_alike();
        steps_are_alike();
        tables_stay();
        walks_leave_pages();
        let address = self.arch.regs.x[11];
        let before = self.output.len();
        let exit = serve(&mut self.arch, &mut self.memory, cells, &mut self.output);
        let written = self.output.len().saturating_sub(before);
        let cycles = words_held(address, written as u64) + SERVICE;
        self.count += 1;
        self.over = exited(exit);
        self.cycles += cycles;
        self.clock += cycles;
        cells.advance(self.clock);
    }

    /// The report's bytes.
    pub fn report(&self, alloc: Global, stop: Stop) -> Result<Bytes, AllocError>
        ensures { IfOk result (λ text. (m : Machine) (cells : CellsState) → StandsFor self.now cells m → text ≡ report (account_of m ∷ []) m.clock (Measure.Cycles) stop) }
    {
        let costs = Costs {
            cycles: self.cycles,
            misses: 0,
        };
        let told = ProcessReport {
            over: self.over,
            pc: self.arch.pc,
            vstart: self.arch.v.vstart(),
            instructions: self.count,
            costs: Some(costs),
            output: self.output.as_slice(),
        };
        report(alloc, &told, self.clock, Measure::Cycles, stop)
    }
}

/// Whether there are enough frames for an image.
fn has_room<C: Cells>(
    alloc: Global,
    image: &Image,
    options: &Options,
    cells: &C,
) -> Result<(), BootFault>
    ensures room { OnOk result (needed_frames image.now ≤ min options.now.frames (C.state cells.now).frames) }
    ensures refused { IfErr result (RefusesBoot options.now image.now (C.state cells.now) (C.state cells.now)) }
{
    let pages = image.pages(alloc)?;
    let need = u64::from(image.table_frames()) + pages.len() as u64;
    let have = options.frames.min(cells.frames());
    if u64::from(have) < need {
        return Err(BootFault::TooFewFrames(need, have));
    }
    Ok(())
}

/// How a process is over behind an episode that ended so.
fn end_of(ended: Ended) -> Option<End>
    ensures { result ≡ end_of ended }
{
    match ended {
        Ended::Faulted(fault) => Some(End::Faulted(fault)),
        Ended::Slice | Ended::Away(_, _) | Ended::Vector | Ended::Service => None,
    }
}

/// How a process is over behind a service that ends it with a code, where it does.
fn exited(code: Option<i64>) -> Option<End>
    ensures { result ≡ option_map End.Exited code }
{
    match code {
        Some(code) => Some(End::Exited(code)),
        None => None,
    }
}
