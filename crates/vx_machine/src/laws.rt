ghost use Rattle.std.specs.Prelude.{◌≡◌, ℕ, ◌+◌, ◌<◌, ◌-◌, ◌^◌, Option, Some};
ghost use Rattle.vx_image.specs.Pages.{Image};
ghost use Rattle.vx_episode.specs.Episode.{EpisodeEnd, episode, within};
ghost use Rattle.vx_episode.specs.Organisation.{Start};
ghost use Rattle.vx_flat.specs.Process.{Process, begun, stepped, stepped_on};
ghost use Rattle.vx_flat.specs.Splits.{IsRunnable};
ghost use Rattle.vx_flat.specs.declared.hart.Hart.{Hart};
ghost use Rattle.vx_machine.specs.Accounts.{account_with, IsOfRun, IsTrueOf};
ghost use Rattle.vx_machine.specs.declared.account.Costs.{Costs};

use vx_flat::{output_only_grows, prefixes_join, steps_may_be_split};

/// What an account tells of a process is so of its image alone on that hart, where the process is one of the run of the image:
/// as is the
/// process at boot and behind some steps alone; and one of the run, where that is runnable, behind a step, within its next
/// instruction, and behind an episode.
pub fn accounts_are_true()
    ensures told { (hart : Hart) (image : Image) (costs : Option Costs) (p : Process) → IsOfRun hart image p → IsTrueOf hart image (account_with costs p) }
    ensures boot { (hart : Hart) (image : Image) → IsOfRun hart image (begun hart image) }
    ensures stepped { (hart : Hart) (image : Image) (p : Process) → IsRunnable hart image → p.count < 2 ^ 64 - 1 → IsOfRun hart image p → IsOfRun hart image (stepped p) }
    ensures within { (hart : Hart) (image : Image) (k : ℕ) (p : Process) → IsRunnable hart image → IsOfRun hart image p → IsOfRun hart image (within k p) }
    ensures steps { (hart : Hart) (image : Image) (n : ℕ) (p : Process) → IsRunnable hart image → p.count + n < 2 ^ 64 → IsOfRun hart image p → IsOfRun hart image (stepped_on n p) }
    ensures alone { (hart : Hart) (image : Image) (n : ℕ) → n < 2 ^ 64 - 1 → IsOfRun hart image (stepped_on n (begun hart image)) }
    ensures episode { (hart : Hart) (image : Image) (start : Start) (until : ℕ) (p : Process) (e : EpisodeEnd) → IsRunnable hart image → p.count + e.completed < 2 ^ 64 - 1 → episode start until p ≡ Some e → IsOfRun hart image p → IsOfRun hart image e.process }
{
    output_only_grows();
    prefixes_join();
    steps_may_be_split();
}
