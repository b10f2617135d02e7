ghost use Rattle.std.specs.Prelude.{◌≡◌, ◌<◌, ◌≤◌, ◌+◌, [], List, None, nat_le, length};
ghost use Rattle.std.specs.List.{prefix_len};
ghost use Rattle.vx_serve.specs.Queue.{QueueView, is_failed, latest_of, unless_failed_by, queue_at, judged_on, judged_all, sooner, later_known, first_failing, is_queued_by};

use crate::fate::Fate;
use crate::served::Failing;
use arrayvec::ArrayVec;
use std::marker::Model;

/// How many accesses a batch has at the most.
pub const MOST: usize = 8;

/// An access whose word is known, and the cycle at which it is queued, where it is.
#[derive(Clone, Copy, PartialEq, Eq, Default, Debug)]
pub struct Lower {
    pub word: u32,
    pub queued: Option<u64>,
}

/// An access that is queued at a cycle, before it is served.
#[derive(Clone, Copy, PartialEq, Eq, Default, Debug)]
pub struct Waiting {
    pub word: u32,
    pub queued: u64,
}

/// The accesses of a batch that were judged so far.
#[derive(Drop)]
pub struct Queue {
    /// Those whose words are known, in the order of their numbers.
    lower: ArrayVec<Lower, MOST>,
    /// Those that are queued, in the order in which they are served.
    order: ArrayVec<Waiting, MOST>,
    /// From which cycle on one of them is known to fail.
    failed: Option<u64>,
    /// How many they are, and how many of them are never queued.
    count: usize,
    missing: usize,
    /// The lowest that fails.
    failing: Option<Failing>,
}

impl Model for Queue {
    ghost use Rattle.std.specs.Prelude.{◌≤◌, length};
    ghost use Rattle.vx_serve.specs.Queue.{QueueView};

    ghost Value = { QueueView };

    ghost view = { λ q. record { lower = q.lower.items; order = q.order.items; failed = q.failed; count = q.count; missing = q.missing; failing = q.failing } };

    ghost invariant = { λ q. (length q.lower.items ≤ q.count) × (length q.order.items ≤ q.count) × (q.missing ≤ q.count) };
}

/// The later of two cycles that may never come.
fn later_known(a: Option<u64>, b: Option<u64>) -> Option<u64>
    ensures { result ≡ later_known a b }
{
    match (a, b) {
        (Some(a), Some(b)) => Some(u64::max(a, b)),
        _ => None,
    }
}

/// The latest of a cycle and the queue cycles of the accesses to a word.
fn latest_of(word: u32, cycle: u64, lower: &[Lower]) -> Option<u64>
    ensures { result ≡ latest_of word (Some cycle) lower.now }
{
    let mut latest = Some(cycle);
    for l in lower {
        if l.word == word {
            latest = later_known(latest, l.queued);
        }
    }
    latest
}

/// The sooner of a cycle, where there is one, and another.
fn sooner(a: Option<u64>, b: u64) -> u64
    ensures { result ≡ sooner a b }
{
    match a {
        Some(a) => u64::min(a, b),
        None => b,
    }
}

/// Whether an access is known to fail by a cycle.
fn is_failed(failed: Option<u64>, cycle: u64) -> bool
    ensures { result ≡ is_failed failed cycle }
{
    match failed {
        Some(failed) => failed <= cycle,
        None => false,
    }
}

/// A queue cycle, unless an access is known to fail by then.
fn unless_failed(failed: Option<u64>, cycle: Option<u64>) -> Option<u64>
    ensures { result ≡ unless_failed_by failed cycle }
{
    match cycle {
        Some(cycle) => {
            if is_failed(failed, cycle) {
                None
            } else {
                Some(cycle)
            }
        }
        None => None,
    }
}

/// How many of the accesses of a queue stand in front of the first that is queued later than a cycle.
pub fn queued_by(queue: &[Waiting], last: u64) -> usize
    ensures value { result ≡ prefix_len (is_queued_by last) queue.now }
    ensures within { result ≤ length queue.now }
{
    queue.iter().take_while(|w| w.queued <= last).count()
}

impl Queue {
    /// No access yet.
    pub fn new() -> Queue
        ensures { result ≡ record { lower = []; order = []; failed = None; count = 0; missing = 0; failing = None } }
    {
        Queue {
            lower: ArrayVec::new(),
            order: ArrayVec::new(),
            failed: None,
            count: 0,
            missing: 0,
            failing: None,
        }
    }

    /// The cycle at which an access to a word is queued that is known from a cycle on.
    fn queue_cycle(&self, cycle: u64, word: u32) -> Option<u64>
        ensures { result ≡ queue_at self.now cycle word }
    {
        unless_failed(self.failed, latest_of(word, cycle, self.lower.as_slice()))
    }

    /// Judges the next access.
    pub fn judge(&mut self, fate: Fate)
        requires { self.old.count < 8 }
        ensures { self.new ≡ judged_on self.old fate }
    {
        match fate {
            Fate::Good(cycle, word) => {
                let queued = self.queue_cycle(cycle, word);
                self.lower.push(Lower { word, queued });
                match queued {
                    Some(queued) => {
                        let place = queued_by(self.order.as_slice(), queued);
                        self.order.insert(place, Waiting { word, queued });
                    }
                    None => self.missing += 1,
                }
            }
            Fate::Fails(cycle, is_away) => {
                self.failed = Some(sooner(self.failed, cycle));
                if self.failing.is_none() {
                    self.failing = Some(Failing {
                        number: self.count,
                        is_away,
                    });
                }
                self.missing += 1;
            }
            Fate::Unknown => self.missing += 1,
        }
        self.count += 1;
    }

    /// The accesses that are queued, in the order in which they are served.
    pub fn order(&self) -> &[Waiting]
        ensures { result.now ≡ self.now.order }
    {
        self.order.as_slice()
    }

    /// How many are never queued.
    pub fn missing(&self) -> usize
        ensures { result ≡ self.now.missing }
    {
        self.missing
    }

    /// The lowest that fails.
    pub fn failing(&self) -> Option<Failing>
        ensures { result ≡ self.now.failing }
    {
        self.failing
    }
}

/// The accesses of a batch, judged.
pub fn judged(fates: &[Fate]) -> Queue
    requires { length fates.now < 9 }
    ensures { result ≡ judged_all (record { lower = []; order = []; failed = None; count = 0; missing = 0; failing = None }) fates.now }
{
    let mut queue = Queue::new();
    for fate in fates {
        queue.judge(*fate);
    }
    queue
}
