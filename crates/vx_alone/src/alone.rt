ghost use Rattle.std.specs.Prelude.{◌≡◌, ◌<◌, ◌≤◌, ◌^◌, ℕ, List, length, true, None, IfOk, IsTrue};
ghost use Rattle.vx_alone.specs.Advances.{Advances};
ghost use Rattle.vx_alone.specs.Settled.{process_of, settled_service};
ghost use Rattle.vx_alone.specs.Turns.{turn_of};
ghost use Rattle.vx_base.specs.Options.{is_register_length};
ghost use Rattle.vx_flat.specs.Process.{begun, stepped};
ghost use Rattle.vx_flat.specs.Step.{upcoming};
ghost use Rattle.vx_hart.specs.Asking.{is_service};
ghost use Rattle.vx_hart.specs.Outcomes.{flat_of};

use crate::memory::Memory;
use crate::turn::Turn;
use std::alloc::{AllocError, Global};
use std::marker::Model;
use vx_decode::KnownWords;
use vx_flat::{End, Hart};
use vx_hart::{Arch, Executor, Progress, serve};
use vx_image::Image;
use vx_scalar::Regs;
use vx_vstate::VState;

/// The flat machine: one process alone, an instruction at a time. It takes all its memory at boot.
#[derive(Debug, Drop)]
pub struct Alone {
    arch: Arch,
    words: KnownWords,
    executor: Executor,
    memory: Memory,
    output: Vec<u8>,
    count: u64,
    over: Option<End>,
}

impl Model for Alone {
    ghost use Rattle.std.specs.Prelude.{◌≤◌, ◌^◌, vec_len, vec_capacity};
    ghost use Rattle.vx_flat.specs.Process.{Process};

    ghost Value = { Process };

    ghost view = { λ m. record {
      state = record {
        pc = m.arch.pc;
        x = m.arch.regs.x;
        v = m.arch.v;
        memory = m.memory;
        output = m.output.items;
      };
      count = m.count;
      over = m.over;
    } };

    ghost invariant = { λ m. (2 ^ 20 ≤ vec_capacity m.output) × (vec_len m.output ≤ 2 ^ 20) };
}

impl Alone {
    /// The machine of an image before its first instruction, with vector registers of `vlen` bits. It takes all the memory of
    /// the run here.
    pub fn boot(alloc: Global, image: &Image, vlen: u32) -> Result<Alone, AllocError>
        requires { IsTrue (is_register_length vlen) }
        ensures { IfOk result (λ m. m ≡ begun (record { vlen = vlen }) image.now) }
    {
        Alone::boot_on(alloc, image, Hart { vlen })
    }

    /// The same on a hart.
    #[tactic(auto, unfolding(vx_flat::specs::Boot::booted))]
    pub fn boot_on(alloc: Global, image: &Image, hart: Hart) -> Result<Alone, AllocError>
        requires { IsTrue (is_register_length hart.vlen) }
        ensures { IfOk result (λ m. m ≡ begun hart image.now) }
    {
        let arch = Arch {
            regs: Regs::first(),
            pc: image.entry(),
            v: VState::new(alloc, hart.vlen)?,
        };
        Ok(Alone {
            arch,
            words: KnownWords::new(alloc)?,
            executor: Executor::new(alloc)?,
            memory: Memory::of(alloc, image)?,
            output: Vec::with_capacity(alloc, 1 << 20)?,
            count: 0,
            over: None,
        })
    }

    /// Takes steps, up to `most`, as long as the process goes on and asks for no service: `serve` does that. Tells whether it
    /// asks.
    #[inline(never)]
    pub fn advance(&mut self, most: u64) -> bool
        ensures { Advances most self.old self.new result }
    {
        if self.over.is_some() {
            return false;
        }
        advance_on(
            &mut self.words,
            &mut self.executor,
            &mut self.arch,
            &mut self.memory,
            &mut self.count,
            &mut self.over,
            most,
        )
    }

    /// Does the service that what stands at the pc asks for.
    pub fn serve(&mut self)
        requires running { self.old.over ≡ None }
        requires asking { is_service (upcoming self.old.state) ≡ true }
        ensures stepped { self.new ≡ stepped self.old }
    {
        let code = serve(&mut self.arch, &mut self.memory, &mut (), &mut self.output);
        self.settle_service(code);
    }

    /// Takes what became of a service into the count and the end.
    fn settle_service(&mut self, code: Option<i64>)
        ensures { self.new ≡ settled_service code self.old }
    {
        if let Some(code) = code {
            self.over = Some(End::Exited(code));
            self.count = self.count.saturating_add(1);
        } else {
            self.count = self.count.saturating_add(1);
        }
    }

    /// The flat step.
    fn go(&mut self)
        ensures { self.new ≡ stepped self.old }
    {
        if self.advance(1) {
            self.serve();
        }
    }

    /// The flat step. After `Exited` or `Faulted` each step repeats that answer and changes nothing.
    pub fn step(&mut self) -> Turn
        ensures stepped { self.new ≡ stepped self.old }
        ensures turn { result ≡ turn_of self.new.over }
    {
        self.go();
        self.turn()
    }

    /// The registers, the pc and the vector state.
    pub fn arch(&self) -> &Arch
        ensures pc { result.now.pc ≡ self.now.state.pc }
        ensures registers { result.now.regs.x ≡ self.now.state.x }
        ensures vectors { result.now.v ≡ self.now.state.v }
    {
        &self.arch
    }

    /// What the process has written.
    pub fn output(&self) -> &[u8]
        ensures bytes { result.now ≡ self.now.state.output }
        ensures limit { length result.now ≤ 2 ^ 20 }
    {
        self.output.as_slice()
    }

    /// How many instructions have completed, up to 2^64 − 1.
    pub fn count(&self) -> u64
        ensures { result ≡ self.now.count }
    {
        self.count
    }

    /// How the process ended, where it has.
    pub fn over(&self) -> Option<End>
        ensures { result ≡ self.now.over }
    {
        self.over
    }

    /// What a step of the machine as it is now answers.
    fn turn(&self) -> Turn
        ensures { result ≡ turn_of self.now.over }
    {
        match self.over {
            None => Turn::Next,
            Some(End::Exited(code)) => Turn::Exited(code),
            Some(End::Faulted(fault)) => Turn::Faulted(fault),
        }
    }
}

/// Takes steps of a process that isn't over, likewise. What they completed is counted at their end.
fn advance_on(
    words: &mut KnownWords,
    executor: &mut Executor,
    arch: &mut Arch,
    memory: &mut Memory,
    count: &mut u64,
    over: &mut Option<End>,
    most: u64,
) -> bool
    requires running { over.old ≡ None }
    ensures { (output : List ℕ) → Advances most (process_of (flat_of arch.old memory.old output) count.old over.old)
        (process_of (flat_of arch.new memory.new output) count.new over.new) result }
{
    has_64_bits(*count);
    let mut done = 0;
    while done < most {
        match executor.advance(words, arch, memory, &mut ()).progress {
            Progress::Completed => done += 1,
            Progress::Asks => {
                *count = count.saturating_add(done);
                return true;
            }
            Progress::Faulted => {
                *count = count.saturating_add(done);
                *over = Some(End::Faulted(executor.fault()));
                return false;
            }
        }
    }
    *count = count.saturating_add(most);
    false
}

/// That a count is a number of 64 bits, for a proof.
fn has_64_bits(count: u64)
    ensures { count < 2 ^ 64 }
{}
