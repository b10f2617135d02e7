ghost use Rattle.std.specs.Prelude.{◌≡◌, ◌≤◌, IsTrue};
ghost use Rattle.vx_base.specs.Options.{is_lane_count};

use crate::course::Course;
use vx_base::Fault;
use vx_hart::Executor;
use vx_look::{DataLookUps, FetchLookUps};
use vx_serve::BankTimes;
use vx_vaddr::AccessList;

/// The parts of an engine with one instruction in flight: what it computes with, and what it keeps of an episode.
#[derive(Debug, Drop)]
pub struct Engine {
    pub executor: Executor,
    pub loads: DataLookUps,
    pub fetches: FetchLookUps,
    pub banks: BankTimes,
    /// Room for the accesses of an element.
    pub list: AccessList,
    pub course: Course,
    /// The last fault.
    pub fault: Fault,
    pub lanes: u32,
    pub bank_time: u32,
    ghost lanes_in_range: { IsTrue (is_lane_count lanes) },
    ghost bank_time_positive: { 1 ≤ bank_time },
    ghost bank_time_in_range: { bank_time ≤ 16 },
    ghost same_time: { banks.bank_time ≡ bank_time },
}
