//! Steps that take no memory, and calls outside of steps that are refused some, each made again.

use crate::started::{BRANCH, REFUSALS, met, started};
use crate::systems::do_step;
use std::test::Fail;
use xa_base::{Part, Refusal, Reply, Side, Step};
use xa_line::Line;

/// What takes no memory is never refused any.
#[test]
fn quiet_steps(rt: HostRuntime) -> Result<(), Fail> {
    let Some(mut system) = started(&rt, rt.alloc()) else {
        return Err(Fail::from("no system is made"));
    };
    let (thread, rm) = (0, 0);
    let steps = [
        Step::Hear { thread, rm },
        Step::Hear { thread, rm },
        Step::Crash(Part::Line { thread, rm }),
        Step::Crash(Part::Rm { rm }),
        Step::Restart(Side::Rm { rm }),
        Step::Crash(Part::Manager),
    ];
    for step in &steps {
        let reply = do_step(&mut system, step.copy());
        assert!(rt; !matches!(reply, Reply::Refused(Refusal::Memory)));
    }
    Ok(())
}

#[test]
fn a_line(rt: HostRuntime) -> Result<(), Fail> {
    let mut made = Line::new(rt.alloc());
    for _ in 0..REFUSALS {
        if made.is_err() {
            met(&rt, "refused line");
            made = Line::new(rt.alloc());
        }
    }
    assert!(rt; made?.free_calls() == 64);
    Ok(())
}

#[test]
fn a_text(rt: HostRuntime) -> Result<(), Fail> {
    let mut text = BRANCH.xid().text(rt.alloc());
    for _ in 0..REFUSALS {
        if text.is_err() {
            met(&rt, "refused text");
            text = BRANCH.xid().text(rt.alloc());
        }
    }
    let want = "7:00000000000000010000000000000001:0000000000000000";
    assert!(rt; text?.as_str() == want);
    Ok(())
}

#[test]
fn a_report(rt: HostRuntime) -> Result<(), Fail> {
    let alloc = rt.alloc();
    let Some(system) = started(&rt, alloc) else {
        return Err(Fail::from("no system is made"));
    };
    let mut report = system.report(alloc);
    for _ in 0..REFUSALS {
        if report.is_err() {
            met(&rt, "refused report");
            report = system.report(alloc);
        }
    }
    assert!(rt; report?.len() == 1);
    Ok(())
}
