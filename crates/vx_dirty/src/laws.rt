ghost use Rattle.std.specs.Prelude.{◌≡◌, ℕ, false, None, Some};
ghost use Rattle.vx_dirty.specs.Dirty.{is_dirty};
ghost use Rattle.vx_dirty.specs.Examples.{ExamplesHold};
ghost use Rattle.vx_episode.specs.Episode.{EpisodeEnd, episode};
ghost use Rattle.vx_episode.specs.Organisation.{Start};
ghost use Rattle.vx_flat.specs.Process.{Process};
ghost use Rattle.vx_flat.specs.Splits.{IsWellFormed};
ghost use Rattle.vx_image.specs.Pages.{page_numbered};
ghost use Rattle.vx_tables.specs.Residency.{IsOf};

use vx_decode::decoded_is_valid;
use vx_ending::{ends_have_parts, episodes_end, episodes_go_on, instructions_in_flight};
use vx_flat::{operations_do_as_their_class, runs_are_well_formed};
use vx_vector::{batches_are_longest_runs, legal_movements_are_sound};

/// Law of D: a page that hasn't D set at an episode's end has the bytes that it had at the start, whether it is present or away.
/// So each page whose bytes changed is present, with D.
pub fn changed_pages_are_dirty()
    ensures { (start : Start) (until number : ℕ) (p : Process) (e : EpisodeEnd) → IsWellFormed p.state → p.over ≡ None → IsOf start.residency p.state.memory
        → episode start until p ≡ Some e → is_dirty number e.residency ≡ false
        → page_numbered number e.process.state.memory ≡ page_numbered number p.state.memory }
{
    decoded_is_valid();
    legal_movements_are_sound();
    batches_are_longest_runs();
    operations_do_as_their_class();
    runs_are_well_formed();
    episodes_go_on();
    episodes_end();
    ends_have_parts();
    instructions_in_flight();
}

/// The definitions give what is worked out for some small programs.
pub fn examples_hold()
    ensures { ExamplesHold }
{}
