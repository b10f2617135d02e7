ghost use Rattle.std.specs.Prelude.{◌≡◌, ◌<◌, ◌≤◌, ◌%◌, ◌^◌, ◌+◌, ℕ, [], ◌∷◌, ◌*◌, List, length, map, IsTrue, replicate};
ghost use Rattle.vx_base.specs.Options.{is_bank_count};
ghost use Rattle.vx_episode.specs.Batches as batches;
ghost use Rattle.vx_episode.specs.Footprint.{Access};
ghost use Rattle.vx_episode.specs.History.{AccessTimes, queued_by};
ghost use Rattle.vx_episode.specs.Organisation.{Organisation};
ghost use Rattle.vx_serve.specs.Fates.{told, IsKnownBy, AreKnownBy};
ghost use Rattle.vx_serve.specs.Serving.{Serves, served_of, done_by};
ghost use Rattle.vx_serve.specs.Stamps.{StandsFor, AreBy, AreOfSame};
ghost use Rattle.vx_serve.specs.Turns.{done_at, served_on, served_all, done_all, AreQueuedBy};

use crate::fate::Fate;
use crate::queue::{Waiting, judged, queued_by};
use crate::served::{Failing, Served};
use std::marker::Model;

/// How many banks there are at the most.
const LIMIT: usize = 16;

/// From which cycle each bank of memory is free: the bank time behind the last serve on it, or 0.
#[derive(Debug, Drop)]
pub struct BankTimes {
    banks: u32,
    bank_time: u32,
    stamps: [u64; LIMIT],
}

impl Model for BankTimes {
    ghost use Rattle.std.specs.Prelude.{IsTrue};
    ghost use Rattle.vx_base.specs.Options.{is_bank_count};
    ghost use Rattle.vx_serve.specs.Stamps.{BankStamps};

    ghost Value = { BankStamps };

    ghost view = { λ b. record { banks = b.banks; bank_time = b.bank_time; stamps = b.stamps } };

    ghost invariant = { λ b. IsTrue (is_bank_count b.banks) };
}

/// The bank of a word.
#[inline(always)]
fn bank_of(banks: u32, word: u32) -> usize
    requires { IsTrue (is_bank_count banks) }
    ensures value { result ≡ word % banks }
    ensures within { result < 16 }
{
    (word & (banks - 1)) as usize
}

impl BankTimes {
    /// So many banks, each held for so many cycles by an access. None was served yet.
    pub fn new(banks: u32, bank_time: u32) -> BankTimes
        requires { IsTrue (is_bank_count banks) }
        ensures value { result ≡ record { banks = banks; bank_time = bank_time; stamps = replicate 16 0 } }
        ensures stands { (machine : Organisation) → machine.banks ≡ banks → machine.bank_time ≡ bank_time → StandsFor result machine [] }
        ensures by { AreBy 0 result.stamps }
    {
        BankTimes {
            banks,
            bank_time,
            stamps: [0; LIMIT],
        }
    }

    /// Forgets all serves.
    pub fn clear(&mut self)
        ensures cleared { self.new ≡ record self.old { stamps = replicate 16 0 } }
        ensures stands { (machine : Organisation) → machine.banks ≡ self.old.banks → machine.bank_time ≡ self.old.bank_time → StandsFor self.new machine [] }
        ensures by { AreBy 0 self.new.stamps }
    {
        self.stamps = [0; LIMIT];
    }

    /// Serves an access to a word that was queued at a cycle, and tells when it is done.
    #[inline(always)]
    fn serve(&mut self, queued: u64, word: u32) -> u64
        requires queued { queued < 2 ^ 63 }
        requires stamps { AreBy (2 ^ 63) self.old.stamps }
        ensures done { result ≡ done_at self.old queued word }
        ensures served { self.new ≡ served_on self.old queued word }
        ensures by { (last : ℕ) → AreBy last self.old.stamps → queued < last → AreBy (last + 2 ^ 32) self.new.stamps }
    {
        let bank = bank_of(self.banks, word);
        let done = u64::max(queued + 1, self.stamps[bank]) + u64::from(self.bank_time);
        self.stamps[bank] = done;
        done
    }

    /// Serves the accesses of a queue in turn, and tells when all are done.
    fn serve_queue(&mut self, queue: &[Waiting]) -> u64
        requires few { length queue.now < 9 }
        requires queued { AreQueuedBy (2 ^ 62) queue.now }
        requires stamps { AreBy (2 ^ 62) self.old.stamps }
        ensures done { result ≡ done_all self.old 0 queue.now }
        ensures served { self.new ≡ served_all self.old queue.now }
        ensures kept { AreOfSame self.old self.new }
    {
        let mut done = 0;
        for w in queue {
            done = u64::max(self.serve(w.queued, w.word), done);
        }
        done
    }

    /// Serves a batch of one access, where it is queued.
    #[inline(always)]
    pub fn serve_one(&mut self, fate: Fate) -> Served
        requires known { IsKnownBy (2 ^ 62) fate }
        requires stamps { AreBy (2 ^ 62) self.old.stamps }
        ensures serves { (machine : Organisation) (earlier : List AccessTimes) (access : Access) (fate_of : Access → batches.Fate) → StandsFor self.old machine earlier
            → fate_of access ≡ told fate → Serves self.new machine earlier fate_of (access ∷ []) result }
        ensures by { (last : ℕ) → AreBy last self.old.stamps → result.done ≤ last → AreBy last self.new.stamps }
        ensures soon { (last : ℕ) → AreBy last self.old.stamps → IsKnownBy last fate → result.done ≤ last + 1 + self.old.bank_time }
        ensures kept { AreOfSame self.old self.new }
    {
        match fate {
            Fate::Good(cycle, word) => Served {
                done: self.serve(cycle, word),
                missing: 0,
                failing: None,
            },
            Fate::Fails(_, is_away) => Served {
                done: 0,
                missing: 1,
                failing: Some(Failing { number: 0, is_away }),
            },
            Fate::Unknown => Served {
                done: 0,
                missing: 1,
                failing: None,
            },
        }
    }

    /// Serves a batch of up to eight accesses, those that are queued, in the order of their queue cycles and then of their numbers.
    pub fn serve_all(&mut self, fates: &[Fate]) -> Served
        requires few { length fates.now < 9 }
        requires known { AreKnownBy (2 ^ 62) fates.now }
        requires stamps { AreBy (2 ^ 62) self.old.stamps }
        ensures serves { (machine : Organisation) (earlier : List AccessTimes) (accesses : List Access) (fate_of : Access → batches.Fate) → StandsFor self.old machine earlier
            → map fate_of accesses ≡ map told fates.now → Serves self.new machine earlier fate_of accesses result }
        ensures by { (last : ℕ) → AreBy last self.old.stamps → result.done ≤ last → AreBy last self.new.stamps }
        ensures soon { (last : ℕ) → AreBy last self.old.stamps → AreKnownBy last fates.now → result.done ≤ last + 1 + length fates.now * self.old.bank_time }
        ensures kept { AreOfSame self.old self.new }
    {
        let queue = judged(fates);
        Served {
            done: self.serve_queue(queue.order()),
            missing: queue.missing(),
            failing: queue.failing(),
        }
    }

    /// Serves a batch of accesses, and tells when those are done that are queued by a cycle, 0 where there are none. The stamps
    /// need not stand for anything afterwards.
    pub fn serve_all_by(&mut self, fates: &[Fate], last: u64) -> u64
        requires few { length fates.now < 9 }
        requires known { AreKnownBy (2 ^ 62) fates.now }
        requires stamps { AreBy (2 ^ 62) self.old.stamps }
        ensures done { (machine : Organisation) (earlier : List AccessTimes) (accesses : List Access) (fate_of : Access → batches.Fate) → StandsFor self.old machine earlier
            → map fate_of accesses ≡ map told fates.now → result ≡ done_by (queued_by last (served_of machine earlier fate_of accesses)) }
        ensures soon { (known : ℕ) → AreBy known self.old.stamps → AreKnownBy known fates.now → result ≤ known + 1 + length fates.now * self.old.bank_time }
        ensures kept { AreOfSame self.old self.new }
    {
        let queue = judged(fates);
        let order = queue.order();
        let count = queued_by(order, last);
        self.serve_queue(&order[..count])
    }
}
