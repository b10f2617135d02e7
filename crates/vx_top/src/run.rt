ghost use Rattle.std.specs.Prelude.{◌≡◌, IfOk, IfErr};
ghost use Rattle.vx_machine.specs.Claim.{Headline, HeadlineAlone};
ghost use Rattle.vx_read.specs.Images.{image_of};
ghost use Rattle.vx_system.specs.Runs.{settings_of};
ghost use Rattle.vx_top.specs.Files.{Ran, RanFile, Refuses, RefusesJob, RefusesRun};

use crate::load::{load, name_of, read_file};
use crate::refusal::Refusal;
use std::alloc::{AllocError, Global};
use vx_alone::Alone;
use vx_base::{Bytes, Options, Shelf};
use vx_cells::Cells;
use vx_image::Image;
use vx_machine::{Stop, accounts_are_true};
use vx_read::ImageWord;
use vx_system::{System, report_alone, run_alone};
use vx_words::ImageJob;

/// What a run gives: how it stopped, and the report's bytes.
#[derive(Debug, Drop)]
pub struct Report {
    pub stop: Stop,
    pub text: Bytes,
}

/// Runs an image on the machine.
fn run_machine<C: Cells>(
    alloc: Global,
    image: &Image,
    options: &Options,
    cells: &mut C,
) -> Result<Report, Refusal>
    requires window { options.now.window ≡ 1 }
    requires cycle { (C.state cells.old).cycle ≡ 0 }
    ensures ran { IfOk result (Ran (ImageJob.Run) (settings_of options.now) image.now (C.state cells.old) (C.state cells.new)) }
    ensures refused { IfErr result (RefusesRun (settings_of options.now) image.now (C.state cells.old) (C.state cells.new)) }
{
    accounts_are_true();
    let mut system = System::boot(alloc, image, options, cells)?;
    let stop = system.run(cells);
    let text = system.report(alloc, stop)?;
    Ok(Report { stop, text })
}

/// Runs an image alone.
fn run_flat(alloc: Global, image: &Image, options: &Options) -> Result<Report, AllocError>
    ensures { IfOk result (λ report. HeadlineAlone (settings_of options.now) image.now report.stop report.text) }
{
    accounts_are_true();
    let mut process = Alone::boot(alloc, image, options.vlen)?;
    let stop = run_alone(&mut process, options.budget);
    let text = report_alone(alloc, &process, stop)?;
    Ok(Report { stop, text })
}

/// Does the job with an image.
fn run_image<C: Cells>(
    alloc: Global,
    job: ImageJob,
    image: &Image,
    options: &Options,
    cells: &mut C,
) -> Result<Report, Refusal>
    requires window { options.now.window ≡ 1 }
    requires cycle { (C.state cells.old).cycle ≡ 0 }
    ensures ran { IfOk result (Ran job (settings_of options.now) image.now (C.state cells.old) (C.state cells.new)) }
    ensures refused { IfErr result (RefusesJob job (settings_of options.now) image.now (C.state cells.old) (C.state cells.new)) }
{
    match job {
        ImageJob::Run => run_machine(alloc, image, options, cells),
        ImageJob::Alone => Ok(run_flat(alloc, image, options)?),
    }
}

/// Reads the image of a file and does the job with it.
pub fn run_file<F: Shelf, C: Cells>(
    alloc: Global,
    job: ImageJob,
    file: ImageWord,
    options: &Options,
    shelf: &mut F,
    cells: &mut C,
) -> Result<Report, Refusal>
    requires window { options.now.window ≡ 1 }
    requires cycle { (C.state cells.old).cycle ≡ 0 }
    ensures ran { IfOk result (RanFile job (settings_of options.now) (F.state shelf.old) (F.state shelf.new) (C.state cells.old) (C.state cells.new) (image_of file.entry)) }
    ensures refused { IfErr result (Refuses job (settings_of options.now) (F.state shelf.old) (F.state shelf.new) (C.state cells.old) (C.state cells.new) (image_of file.entry)) }
{
    let bytes = read_file(alloc, name_of(file), shelf)?;
    let image = load(alloc, file, bytes.slice())?;
    run_image(alloc, job, &image, options, cells)
}
