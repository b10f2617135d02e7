ghost use Rattle.std.specs.Prelude.{◌≡◌, ◌≤◌, ◌<◌, ◌^◌, ◌==◌, ◌||◌, IsTrue};
ghost use Rattle.vx_base.specs.Options.{is_register_length, is_lane_count, is_bank_count};

/// The machine that a run is told for. Each field lies in its range.
#[derive(Clone, Copy, PartialEq, Eq, Debug)]
pub struct Options {
    /// Bits of a vector register: 128, 256, 512, 1,024 or 2,048.
    pub vlen: u32,
    /// Lanes: 1, 2, 4 or 8.
    pub lanes: u32,
    /// Memory banks: 1, 2, 4, 8 or 16.
    pub banks: u32,
    /// Cycles for which an access holds its bank: 1 to 16.
    pub bank_time: u32,
    /// Instructions in flight: 1 to 8.
    pub window: u32,
    /// Cycles of a slice, after which another process may go on: 1 to 2^32.
    pub slice: u64,
    /// Frames of 4,096 bytes of physical memory: 16 to 16,384.
    pub frames: u32,
    /// Slots of 4,096 bytes of the page store: 0 to 65,536.
    pub slots: u32,
    /// Cycles after which the run ends: 1 to 2^40.
    pub budget: u64,
    ghost vlen_in_range: { IsTrue (is_register_length vlen) },
    ghost lanes_in_range: { IsTrue (is_lane_count lanes) },
    ghost banks_in_range: { IsTrue (is_bank_count banks) },
    ghost bank_time_positive: { 1 ≤ bank_time },
    ghost bank_time_in_range: { bank_time ≤ 16 },
    ghost window_positive: { 1 ≤ window },
    ghost window_in_range: { window ≤ 8 },
    ghost slice_positive: { 1 ≤ slice },
    ghost slice_in_range: { slice ≤ 2 ^ 32 },
    ghost frames_enough: { 16 ≤ frames },
    ghost frames_in_range: { frames ≤ 16384 },
    ghost slots_in_range: { slots ≤ 65536 },
    ghost budget_positive: { 1 ≤ budget },
    ghost budget_in_range: { budget ≤ 2 ^ 40 },
}

impl Options {
    /// The options of a run whose words name none.
    pub fn new() -> Options
        ensures vlen { result.vlen ≡ 256 }
        ensures lanes { result.lanes ≡ 4 }
        ensures banks { result.banks ≡ 8 }
        ensures bank_time { result.bank_time ≡ 4 }
        ensures window { result.window ≡ 1 }
        ensures slice { result.slice ≡ 10000 }
        ensures frames { result.frames ≡ 4096 }
        ensures slots { result.slots ≡ 8192 }
        ensures budget { result.budget ≡ 1000000000 }
    {
        Options {
            vlen: 256,
            lanes: 4,
            banks: 8,
            bank_time: 4,
            window: 1,
            slice: 10_000,
            frames: 4096,
            slots: 8192,
            budget: 1_000_000_000,
        }
    }
}
