//! From instruction to instruction, up to the end of the episode.

ghost use Rattle.std.specs.Prelude.{◌≡◌, ℕ, ◌+◌, ◌<◌, ◌≤◌, ◌^◌, List};
ghost use Rattle.vx_cells.specs.Cells.{CellsState};
ghost use Rattle.vx_decode.specs.Encoded.{IsValid};
ghost use Rattle.vx_episode.specs.Organisation.{Start};
ghost use Rattle.vx_flat.specs.Process.{Process};
ghost use Rattle.vx_pipe.specs.Going.{IsEpisodeOn, IsGoing, IsIssuing, IsOver};
ghost use Rattle.vx_pipe.specs.Left.{registers_of};
ghost use Rattle.vx_pipe.specs.Playing.{shown_state};
ghost use Rattle.vx_pipe.specs.Turning.{HasTurned, IsIssued, IsTimely, IsTurning, caches_of, course_of, machine_of};

use crate::accesses::{Loads, Stores, access};
use crate::arithmetic::calculate;
use crate::effects::do_effect;
use crate::engine::Engine;
use crate::fetches::fetch_next;
use crate::moving::move_by;
use crate::plain::do_plain;
use crate::refused::refuse;
use crate::turn::Turn;
use vx_cells::Cells;
use vx_decode::{Known, KnownWords};
use vx_episode::Ended;
use vx_hart::{Arch, Direction, Found, find};
use vx_paged::{Paged, tables_stay, walks_leave_pages};
use vx_rows::Class;

/// Does an instruction that was fetched, by its class.
#[inline(always)]
fn do_issued<C: Cells>(
    engine: &mut Engine,
    cells: &mut C,
    arch: &mut Arch,
    memory: &mut Paged,
    root: u32,
    until: u64,
    fetched: u64,
    word: u32,
    known: &Known,
) -> Turn
    requires valid { IsValid known.now.instr }
    requires until { until ≤ 2 ^ 42 }
    requires issued { IsIssued (machine_of engine.old) root until memory.old (course_of engine.old.course) fetched (caches_of engine.old) (C.state cells.old) (registers_of arch.old) word known.now.instr }
    ensures turned { (start : Start) (from : Process) (first : CellsState) (output : List ℕ) → IsEpisodeOn (machine_of engine.old) root memory.old start
        → IsIssuing start until from first (course_of engine.old.course) fetched (caches_of engine.old) (C.state cells.old) (shown_state (registers_of arch.old) memory.old (C.state cells.old) output)
        → HasTurned result engine.new.fault start until from first (course_of engine.new.course) (caches_of engine.new) (C.state cells.new) (shown_state (registers_of arch.new) memory.new (C.state cells.new) output) }
    ensures timely { IsTimely result (course_of engine.old.course) (course_of engine.new.course) }
    ensures machine { machine_of engine.new ≡ machine_of engine.old }
    ensures memory { memory.new ≡ memory.old }
{
    match known.class {
        Class::Arithmetic => do_effect(
            engine,
            cells,
            arch,
            memory,
            root,
            until,
            fetched,
            word,
            Class::Arithmetic,
            &known.instr,
        ),
        Class::Multiply => do_effect(
            engine,
            cells,
            arch,
            memory,
            root,
            until,
            fetched,
            word,
            Class::Multiply,
            &known.instr,
        ),
        Class::Divide => do_effect(
            engine,
            cells,
            arch,
            memory,
            root,
            until,
            fetched,
            word,
            Class::Divide,
            &known.instr,
        ),
        Class::Jump => do_effect(
            engine,
            cells,
            arch,
            memory,
            root,
            until,
            fetched,
            word,
            Class::Jump,
            &known.instr,
        ),
        Class::Branch => do_effect(
            engine,
            cells,
            arch,
            memory,
            root,
            until,
            fetched,
            word,
            Class::Branch,
            &known.instr,
        ),
        Class::Fence => do_effect(
            engine,
            cells,
            arch,
            memory,
            root,
            until,
            fetched,
            word,
            Class::Fence,
            &known.instr,
        ),
        Class::Load => access::<Loads, C>(
            engine,
            cells,
            arch,
            memory,
            root,
            until,
            fetched,
            word,
            &known.instr,
        ),
        Class::Store => access::<Stores, C>(
            engine,
            cells,
            arch,
            memory,
            root,
            until,
            fetched,
            word,
            &known.instr,
        ),
        Class::VectorArithmetic(family) => calculate(
            engine, cells, arch, memory, root, until, fetched, word, known, family,
        ),
        Class::VectorLoad(addressing, encoded) => move_by(
            engine,
            cells,
            arch,
            memory,
            root,
            until,
            fetched,
            word,
            known,
            Direction::Loading,
            addressing,
            encoded,
        ),
        Class::VectorStore(addressing, encoded) => move_by(
            engine,
            cells,
            arch,
            memory,
            root,
            until,
            fetched,
            word,
            known,
            Direction::Storing,
            addressing,
            encoded,
        ),
        _ => do_plain(
            engine, cells, arch, memory, root, until, fetched, word, known,
        ),
    }
}

/// Fetches the next instruction and does it.
#[inline(always)]
fn turn<C: Cells>(
    engine: &mut Engine,
    words: &mut KnownWords,
    cells: &mut C,
    arch: &mut Arch,
    memory: &mut Paged,
    root: u32,
    until: u64,
) -> Turn
    requires until { until ≤ 2 ^ 42 }
    requires going { IsTurning (machine_of engine.old) root until memory.old (course_of engine.old.course) (caches_of engine.old) (C.state cells.old) (registers_of arch.old) }
    ensures turned { (start : Start) (from : Process) (first : CellsState) (output : List ℕ) → IsEpisodeOn (machine_of engine.old) root memory.old start
        → IsGoing start until from first (course_of engine.old.course) (caches_of engine.old) (C.state cells.old) (shown_state (registers_of arch.old) memory.old (C.state cells.old) output)
        → HasTurned result engine.new.fault start until from first (course_of engine.new.course) (caches_of engine.new) (C.state cells.new) (shown_state (registers_of arch.new) memory.new (C.state cells.new) output) }
    ensures timely { IsTimely result (course_of engine.old.course) (course_of engine.new.course) }
    ensures machine { machine_of engine.new ≡ machine_of engine.old }
    ensures memory { memory.new ≡ memory.old }
{
    tables_stay();
    walks_leave_pages();
    let bank_time = u64::from(engine.bank_time);
    let begun = engine.course.begun;
    let fetched = fetch_next(&mut engine.fetches, cells, root, bank_time, arch.pc, begun);
    match find(words, arch, memory, cells) {
        Found::Denied => refuse(engine, words, cells, arch, memory, root, until, fetched),
        Found::Unknown(_) => refuse(engine, words, cells, arch, memory, root, until, fetched),
        Found::Known(word, known) => do_issued(
            engine, cells, arch, memory, root, until, fetched, word, known,
        ),
    }
}

/// How an episode ended, and the cycle at which the system takes over.
#[derive(Clone, Copy, PartialEq, Eq, Debug)]
pub struct Over {
    pub ended: Ended,
    pub clock: u64,
}

/// Goes from instruction to instruction until the episode is over.
pub(crate) fn run<C: Cells>(
    engine: &mut Engine,
    words: &mut KnownWords,
    cells: &mut C,
    arch: &mut Arch,
    memory: &mut Paged,
    root: u32,
    until: u64,
) -> Over
    requires until { until ≤ 2 ^ 42 }
    requires going { IsTurning (machine_of engine.old) root until memory.old (course_of engine.old.course) (caches_of engine.old) (C.state cells.old) (registers_of arch.old) }
    requires unbegun { engine.old.course.completed ≡ 0 }
    ensures over { (start : Start) (from : Process) (first : CellsState) (output : List ℕ) → IsEpisodeOn (machine_of engine.old) root memory.old start
        → IsGoing start until from first (course_of engine.old.course) (caches_of engine.old) (C.state cells.old) (shown_state (registers_of arch.old) memory.old (C.state cells.old) output)
        → IsOver start until from first result.ended result.clock (course_of engine.new.course) (C.state cells.new) (shown_state (registers_of arch.new) memory.new (C.state cells.new) output) }
    ensures later { (start : Start) (from : Process) (first : CellsState) (output : List ℕ) → IsEpisodeOn (machine_of engine.old) root memory.old start
        → IsGoing start until from first (course_of engine.old.course) (caches_of engine.old) (C.state cells.old) (shown_state (registers_of arch.old) memory.old (C.state cells.old) output)
        → start.cycle + engine.new.course.completed < result.clock }
    ensures bounded { result.clock ≤ 2 ^ 43 }
    ensures machine { machine_of engine.new ≡ machine_of engine.old }
    ensures memory { memory.new ≡ memory.old }
{
    for _ in 0..until + 1 {
        match turn(engine, words, cells, arch, memory, root, until) {
            Turn::Goes => {}
            Turn::Slice(clock) => {
                return Over {
                    ended: Ended::Slice,
                    clock,
                };
            }
            Turn::Service(clock) => {
                return Over {
                    ended: Ended::Service,
                    clock,
                };
            }
            Turn::Faulted(clock) => {
                return Over {
                    ended: Ended::Faulted(engine.fault),
                    clock,
                };
            }
        }
    }
    unreachable!()
}
