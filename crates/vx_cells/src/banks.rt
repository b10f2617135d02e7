ghost use Rattle.std.specs.Prelude.{◌≡◌, ◌≤◌, ◌<◌, ◌+◌, ◌↔◌, [], ◌∷◌, ◌++◌, ◌*◌, length, position, replicate, IsTrue, None};
ghost use Rattle.vx_cells.specs.Banks.{is_on_bank, queue_of, access_of, value_of, AreWithin, IsFree, IsReady, Serves};
ghost use Rattle.vx_cells.specs.Cells.{Makes};

use crate::access::Port;
use crate::cells::Cells;
use arrayvec::ArrayVec;
use std::marker::Model;

/// How many banks there are at the most, and how many accesses wait at the most.
const LIMIT: usize = 16;

/// An access that waits for its bank: a tag by which it is known again, its word, and for a store its value and which of its
/// bytes are written, bit `j` byte `j`.
#[derive(Clone, Copy, PartialEq, Eq, Default, Debug)]
pub struct Queued {
    pub tag: u32,
    pub word: u32,
    pub bytes: u8,
    pub value: u64,
    pub store: bool,
}

/// An access that was made: its tag, and the word that was read, or the value that was stored.
#[derive(Clone, Copy, PartialEq, Eq, Debug)]
pub struct Served {
    pub tag: u32,
    pub value: u64,
}

/// Banks of memory, each with a queue that is served first in, first out. Word `w` lies in bank `w % banks`. They take no
/// memory.
#[derive(Debug, Drop)]
pub struct Banks {
    banks: u32,
    bank_time: u32,
    queued: ArrayVec<Queued, LIMIT>,
    served: [Option<u64>; LIMIT],
}

impl Model for Banks {
    ghost use Rattle.std.specs.Prelude.{◌≤◌, ◌<◌};
    ghost use Rattle.vx_cells.specs.Banks.{BanksView};

    ghost Value = { BanksView };

    ghost view = { λ b. record { banks = b.banks; bank_time = b.bank_time; queued = b.queued.items; served = b.served } };

    ghost invariant = { λ b. (0 < b.banks) × (b.banks ≤ 16) };
}

/// The place of the first access that waits for a bank.
fn first_on(queued: &[Queued], banks: u32, bank: u32) -> Option<usize>
    requires { 0 < banks }
    ensures { result ≡ position (is_on_bank banks bank) queued.now }
{
    queued.iter().position(|q| q.word % banks == bank)
}

/// Makes an access that waited, at the current cycle, and answers its value.
fn make<C: Cells>(cells: &mut C, q: Queued) -> u64
    requires { q.word < 512 * (C.state cells.old).frames }
    ensures makes { Makes (C.state cells.old) (C.state cells.new) (access_of (C.state cells.old) q ∷ []) }
    ensures value { result ≡ value_of (C.state cells.old) q }
{
    if q.store {
        cells.write(Port::Data, q.word, q.value, q.bytes);
        q.value
    } else {
        cells.read(Port::Data, q.word)
    }
}

impl Banks {
    /// So many banks, 1 to 16, each held for so many cycles by an access. Nothing waits, and none was served yet.
    pub fn new(banks: u32, bank_time: u32) -> Banks
        requires some { 0 < banks }
        requires limit { banks ≤ 16 }
        ensures { result ≡ record { banks = banks; bank_time = bank_time; queued = []; served = replicate 16 None } }
    {
        Banks {
            banks,
            bank_time,
            queued: ArrayVec::new(),
            served: [None; LIMIT],
        }
    }

    /// Lets an access wait for its bank, behind those that wait. Fewer than 16 do.
    pub fn offer(&mut self, q: Queued)
        requires { length self.old.queued < 16 }
        ensures { self.new ≡ record self.old { queued = self.old.queued ++ q ∷ [] } }
    {
        self.queued.push(q);
    }

    /// Whether a bank can serve: an access waits for it, and the bank time since its last serve, if any, is over.
    pub fn ready(&self, bank: u32, now: u64) -> bool
        ensures { IsTrue result ↔ IsReady self.now bank now }
    {
        match first_on(&self.queued, self.banks, bank) {
            None => false,
            Some(_) => is_over(self.served[bank as usize], self.bank_time, now),
        }
    }

    /// Makes the first access that waits for a bank, at the current cycle on port Data.
    pub fn serve<C: Cells>(&mut self, cells: &mut C, bank: u32) -> Served
        requires waits { 0 < length (queue_of self.old bank) }
        requires within { AreWithin self.old.queued (C.state cells.old).frames }
        ensures serves { Serves self.old self.new bank (C.state cells.old) (C.state cells.new) result }
        ensures kept { AreWithin self.new.queued (C.state cells.new).frames }
    {
        let Some(place) = first_on(&self.queued, self.banks, bank) else {
            unreachable!()
        };
        self.served[bank as usize] = Some(cells.now());
        let q = self.queued.remove(place);
        Served {
            tag: q.tag,
            value: make(cells, q),
        }
    }
}

/// Whether so many cycles have passed since a serve, if there was one.
fn is_over(served: Option<u64>, bank_time: u32, now: u64) -> bool
    ensures { IsTrue result ↔ IsFree served bank_time now }
{
    match served {
        None => true,
        Some(last) => now >= last && now - last >= u64::from(bank_time),
    }
}
