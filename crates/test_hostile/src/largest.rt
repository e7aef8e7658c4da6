//! The most jobs of each version, all of which are in HANG.

use super::running::run;
use its_top::Status;
use std::alloc::Global;
use std::process::Abort;
use std::test::Fail;

/// So many jobs, after this first line, are all that there can be; each of them waits in HANG, and
/// goes on waiting.
fn all_hang(alloc: Global, rt: &impl Abort, first: &str, jobs: u32) -> Result<(), Fail> {
    let mut session = String::new(alloc);
    let mut shown = String::new(alloc);
    session.push_str(first)?;
    for k in 0..jobs {
        session.push_str(
            "LOAD U X -\n100/ 43000000110\n110/ 400000000000 504156470000 405000000000\nGO 100\n",
        )?;
        let made = format!(in alloc; "J {k:o}\n")?;
        shown.push_str(&made)?;
    }
    for k in 0..jobs {
        let ticks = format!(in alloc; "TICK {k:o} 6\nTICK {k:o} 100\nPEEK {k:o}\n")?;
        session.push_str(&ticks)?;
        let told = format!(in alloc;
            "T {k:o} 4. 2w\nT {k:o} 100w\nP {k:o} WAITING 504156470000 1 - - -\n"
        )?;
        shown.push_str(&told)?;
    }
    let full = format!(in alloc; "? {:o} FULL\n", session.split('\n').count())?;
    session.push_str("LOAD U X -\n")?;
    shown.push_str(&full)?;
    let got = run(alloc, &session)?;
    assert_eq!(rt; got.wrote.as_slice(), shown.as_bytes());
    assert_eq!(rt; got.status, Status::Refused);
    Ok(())
}

#[test]
fn every_job_hangs(rt: HostRuntime) -> Result<(), Fail> {
    all_hang(rt.alloc(), &rt, "", 64)?;
    all_hang(rt.alloc(), &rt, "VERSION 2\n", 96)
}
