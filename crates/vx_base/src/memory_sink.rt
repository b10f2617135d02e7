ghost use Rattle.std.specs.Prelude.{◌≡◌, ◌<◌, [], length, IfOk};
ghost use Rattle.vx_base.specs.Sink.{Puts};
ghost use Rattle.vx_base.specs.MemorySink.{sink_told, fails_next, PutsInMemory};

use crate::sink::{Put, Sink};
use std::alloc::{AllocError, Global};
use std::marker::Model;

/// A sink in memory. It tells all, fails the puts whose numbers it was given, and holds a stated number of bytes.
#[derive(Debug, Drop)]
pub struct MemSink {
    bytes: Vec<u8>,
    room: usize,
    per_put: usize,
    fails: Vec<u64>,
    calls: u64,
    faults: u64,
}

impl Model for MemSink {
    ghost use Rattle.std.specs.Prelude.{◌≤◌, ◌<◌, vec_len, vec_capacity};
    ghost use Rattle.vx_base.specs.MemorySink.{MemSinkView};

    ghost Value = { MemSinkView };

    ghost view = { λ s. record {
      bytes = s.bytes.items;
      room = s.room;
      per_put = s.per_put;
      fails = s.fails.items;
      calls = s.calls;
      faults = s.faults;
    } };

    ghost invariant = { λ s. (vec_len s.bytes ≤ s.room) × (s.room ≤ vec_capacity s.bytes) × (0 < s.per_put) };
}

impl MemSink {
    /// An empty sink with room for `room` bytes, all of which it takes here. A put takes at most `per_put` bytes. The
    /// puts with the numbers in `fails`, counted from 1 and in rising order, fail; so does one that finds no room.
    pub fn new(
        alloc: Global,
        room: usize,
        per_put: usize,
        fails: Vec<u64>,
    ) -> Result<MemSink, AllocError>
        requires { 0 < per_put }
        ensures { IfOk result (λ sink. sink ≡ record {
          bytes = [];
          room = room;
          per_put = per_put;
          fails = fails.items;
          calls = 0;
          faults = 0;
        }) }
    {
        let bytes = Vec::with_capacity(alloc, room)?;
        Ok(MemSink {
            bytes,
            room,
            per_put,
            fails,
            calls: 0,
            faults: 0,
        })
    }

    /// The bytes put so far.
    pub fn bytes(&self) -> &[u8]
        ensures { result.now ≡ self.now.bytes }
    {
        self.bytes.as_slice()
    }

    /// Whether the next put fails.
    fn fails_next(&self) -> bool
        ensures { result ≡ fails_next self.now }
    {
        self.fails.contains(&self.calls.saturating_add(1)) || self.room <= self.bytes.len()
    }
}

impl Sink for MemSink {
    ghost use Rattle.vx_base.specs.MemorySink.{sink_told};

    ghost state = { sink_told };

    fn put(&mut self, piece: &[u8]) -> Put
        requires { 0 < length piece.now }
        ensures told { Puts (sink_told self.old) (sink_told self.new) piece.now result }
        ensures exact { PutsInMemory self.old self.new piece.now result }
    {
        let fails = self.fails_next();
        self.calls = self.calls.saturating_add(1);
        if fails {
            self.faults = self.faults.saturating_add(1);
            return Put::Failed;
        }
        let count = self
            .per_put
            .min(self.room - self.bytes.len())
            .min(piece.len());
        match self.bytes.extend_from_slice(&piece[..count]) {
            Ok(()) => Put::Took(count),
            Err(_) => unreachable!(),
        }
    }
}
