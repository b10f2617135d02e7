use crate::alone::HI;
use std::test::Fail;
use vx_alone::Alone;
use vx_base::Options;
use vx_cells::VecCells;
use vx_image::raw_image;
use vx_system::{Stop, System, report_alone, run_alone};

#[test]
fn a_system_runs_to_its_end(rt: HostRuntime) -> Result<(), Fail> {
    let alloc = rt.alloc();
    let image = raw_image(alloc, &HI)?;
    let mut cells = VecCells::new(alloc, 32)?;
    let Ok(mut system) = System::boot(alloc, &image, &Options::new(), &mut cells) else {
        return Err(Fail::from("not booted"));
    };
    let stop = system.run(&mut cells);
    assert_eq!(rt; stop, Stop::Done);
    let report =
        "process 0: exited 0\n  instructions 9 cycles 196 misses 0\n  output 3\nhi\n\ntotal 296 cycles, done\n";
    assert_eq!(rt; system.report(alloc, stop)?.slice(), report.as_bytes());
    Ok(())
}

#[test]
fn a_process_runs_alone_to_its_end(rt: HostRuntime) -> Result<(), Fail> {
    let alloc = rt.alloc();
    let mut process = Alone::boot(alloc, &raw_image(alloc, &HI)?, 256)?;
    let stop = run_alone(&mut process, 9);
    assert_eq!(rt; stop, Stop::Done);
    let report =
        "process 0: exited 0\n  instructions 9\n  output 3\nhi\n\ntotal 9 instructions, done\n";
    assert_eq!(rt;
        report_alone(alloc, &process, stop)?.slice(),
        report.as_bytes()
    );
    Ok(())
}
