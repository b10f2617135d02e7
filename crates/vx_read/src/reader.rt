ghost use Rattle.std.specs.Prelude.{◌≡◌, ℕ, List, ◌∷◌, map, string_bytes, IfOk, IfErr};
ghost use Rattle.vx_words.specs.Words.{AreOutside, IsFirstBad, job_word};
ghost use Rattle.vx_read.specs.Read.{AreRead, IsRead};
ghost use Rattle.vx_read.specs.Numbers.{nothing};
ghost use Rattle.vx_read.specs.Behind.{AreBadBehind};

use crate::asked::Asked;
use crate::files::one_file;
use crate::fronts::{Front, first_word, front_of};
use crate::numbers::Numbers;
use crate::run_words::RunWords;
use vx_words::ImageJob;

/// Reads the words of the command line, without the program's name: `run` or `alone`, then options, then an image; or
/// `dis FILE` or `asm FILE`.
///
/// An option is two words, `--name number`, or one, `--name=number`; each is given at most once, and is one of the
/// command's. A number is its decimal digits without a leading zero, and one that the option takes. An image is `raw:NAME` with NAME not empty, which is raw bytes, or
/// else FILE, an ELF file. FILE isn't empty and doesn't begin with `-`. An image and FILE end the words. The command line is
/// this project's own.
///
/// Where the words ask for no command, the answer is the index, from 0, of the first word that no command has behind
/// those before it; where the words are a proper beginning of a command's, it is their number.
pub fn read<'a>(words: &'a [String]) -> Result<Asked<'a>, usize>
    ensures asks { IfOk result (IsRead (map string_bytes words.now)) }
    ensures outside { IfErr result (λ _. AreOutside (map string_bytes words.now)) }
    ensures first_bad { IfErr result (λ index. IsFirstBad (map string_bytes words.now) index) }
{
    let Some((word, rest)) = first_word(words) else {
        return Err(0);
    };
    match word {
        "run" => match read_image(ImageJob::Run, rest) {
            Ok(run) => Ok(Asked::Execute(ImageJob::Run, run)),
            Err(index) => Err(index + 1),
        },
        "alone" => match read_image(ImageJob::Alone, rest) {
            Ok(run) => Ok(Asked::Execute(ImageJob::Alone, run)),
            Err(index) => Err(index + 1),
        },
        "dis" => match one_file(rest) {
            Ok(name) => Ok(Asked::Dis(name)),
            Err(index) => Err(index + 1),
        },
        "asm" => match one_file(rest) {
            Ok(name) => Ok(Asked::Asm(name)),
            Err(index) => Err(index + 1),
        },
        _ => Err(0),
    }
}

/// Reads the words behind the word of the job.
fn read_image<'a>(job: ImageJob, words: &'a [String]) -> Result<RunWords<'a>, usize>
    ensures asks { IfOk result (λ run. AreRead job (job_word job ∷ map string_bytes words.now) run) }
    ensures bad { IfErr result (λ index. AreBadBehind job nothing (map string_bytes words.now) index) }
{
    let mut numbers = Numbers::none();
    let mut rest = words;
    loop {
        match front_of(job, rest, &numbers) {
            Front::Given(setting, number, behind) => {
                numbers = numbers.with(setting, number);
                rest = behind;
            }
            Front::Image(image) => return Ok(numbers.run_of(image)),
            Front::Bad(index) => return Err(words.len() - rest.len() + index),
        }
    }
}
