ghost use Rattle.std.specs.Prelude.{◌≡◌, ◌≤◌, List, map, string_bytes, true, IfSome, unwrap_or};
ghost use Rattle.vx_machine.specs.Machine.{settings_for};
ghost use Rattle.vx_words.specs.Words.{AskFor, Given, ImageFile, every};
ghost use Rattle.vx_words.specs.Words.Command.{Execute};

use crate::options::frames;
use vx_read::{Asked, read, words_ask_for_one_command};
use vx_words::ImageJob;

/// The frames of physical memory that a job uses.
fn frames_of(job: ImageJob, given: Option<u32>) -> u32
    requires { IfSome given (λ n. (16 ≤ n) × (n ≤ 16384) × (every n ≡ true)) }
    ensures limit { result ≤ 16384 }
    ensures run { job ≡ ImageJob.Run → result ≡ unwrap_or given 4096 }
{
    match job {
        ImageJob::Run => frames(given),
        ImageJob::Alone => 0,
    }
}

/// How many frames of physical memory the run that words ask for uses at the most; other words need none.
pub fn frames_for(words: &[String]) -> u32
    ensures limit { result ≤ 16384 }
    ensures run { (givens : List Given) (file : ImageFile) → AskFor (map string_bytes words.now) (Execute (ImageJob.Run) givens file) → result ≡ (settings_for givens).frames }
{
    words_ask_for_one_command();
    match read(words) {
        Ok(Asked::Execute(job, run)) => frames_of(job, run.frames),
        Ok(Asked::Dis(_)) => 0,
        Ok(Asked::Asm(_)) => 0,
        Err(_) => 0,
    }
}
