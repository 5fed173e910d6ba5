//! Worked rows at `MemRm`, by direct calls of thread 0.

use std::process::Abort;
use std::test::Fail;
use xa_base::{
    Answer, Call, CallKind, Fate, How, RbCode, TMENDRSCAN, TMJOIN, TMNOFLAGS, TMSTARTRSCAN,
    TMSUCCESS, Vote, Xid, XidFault,
};
use xa_rm::{MemRm, ResourceManager, RmFault};

/// The flags of a scan that is one call.
const WHOLE_SCAN: u32 = TMSTARTRSCAN + TMENDRSCAN;

// Branches, in their order.
const FOREIGN: &str = "1:01:02";

const A: &str = "7:01:02";

const LONGER: &str = "7:0101:02";

const B: &str = "7:02:02";

const LAST: &str = "8:01:02";

/// A call with its branch and its flags, and the number that it is to answer.
type Asked = (CallKind, &'static str, u32, i128);

/// The calls that prepare a branch. Those before the last one ready it.
fn prepared(xid: &'static str) -> [Asked; 3] {
    [
        (CallKind::Start, xid, TMNOFLAGS, 0),
        (CallKind::End, xid, TMSUCCESS, 0),
        (CallKind::Prepare, xid, TMNOFLAGS, 0),
    ]
}

/// Each of these calls answers what it is to.
fn asks(rt: &impl Abort, rm: &mut MemRm, calls: &[Asked]) -> Result<(), Fail> {
    for (kind, xid, flags, number) in calls {
        let answer = match Call::of(*kind, Some(Xid::parse(xid)?), *flags, None) {
            Ok(call) => rm.apply(0, &call)?,
            Err(code) => Answer::Ret(code),
        };
        assert!(rt; answer.number() == *number);
    }
    Ok(())
}

/// Whether the identifiers are those of these texts.
fn are(xids: &[Xid], texts: &[&str]) -> Result<bool, XidFault> {
    let mut are_alike = xids.len() == texts.len();
    for (xid, text) in xids.iter().zip(texts.iter()) {
        are_alike = are_alike && *xid == Xid::parse(text)?;
    }
    Ok(are_alike)
}

/// Whether a whole scan lists exactly these.
fn lists(rm: &mut MemRm, texts: &[&str]) -> Result<bool, Fail> {
    match rm.recover(0, 8, WHOLE_SCAN)? {
        Answer::Page(page) => Ok(are(page.xids(), texts)?),
        Answer::Ret(_) => Ok(false),
    }
}

#[test]
fn answers_by_the_table(rt: HostRuntime) -> Result<(), Fail> {
    let calls = [
        (CallKind::Start, A, TMNOFLAGS, 0),
        (CallKind::Start, A, TMNOFLAGS, -8),
        (CallKind::Start, A, TMJOIN, -6),
        (CallKind::Start, B, TMJOIN, -4),
        (CallKind::Commit, A, TMNOFLAGS, -6),
        (CallKind::Forget, B, TMNOFLAGS, -4),
    ];
    asks(&rt, &mut MemRm::new(rt.alloc()), &calls)
}

#[test]
fn lists_foreign_identifiers(rt: HostRuntime) -> Result<(), Fail> {
    let rm = &mut MemRm::new(rt.alloc());
    for xid in [FOREIGN, A, LONGER] {
        asks(&rt, rm, &prepared(xid))?;
    }
    asks(&rt, rm, &prepared(LAST)[..2])?;
    rm.heuristic(&Xid::parse(A)?, How::Haz)?;
    assert!(rt; lists(rm, &[FOREIGN, A, LONGER])?);
    let ended = [
        (CallKind::Commit, A, TMNOFLAGS, 8),
        (CallKind::Forget, A, TMNOFLAGS, 0),
    ];
    asks(&rt, rm, &ended)?;
    assert!(rt; lists(rm, &[FOREIGN, LONGER])?);
    assert!(rt; rm.fate(&Xid::parse(A)?) == Fate::Heuristic(How::Haz));
    assert!(rt; rm.holds_format(8) && !rm.holds_format(9));
    Ok(())
}

#[test]
fn follows_scripts(rt: HostRuntime) -> Result<(), Fail> {
    let rm = &mut MemRm::new(rt.alloc());
    rm.vote(&Xid::parse(A)?, Vote::No(RbCode::Deadlock))?;
    rm.retry(&Xid::parse(B)?, 1)?;
    rm.crash();
    asks(&rt, rm, &prepared(A)[..2])?;
    asks(&rt, rm, &prepared(B))?;
    let calls = [
        (CallKind::Prepare, A, TMNOFLAGS, 102),
        (CallKind::Commit, B, TMNOFLAGS, 4),
    ];
    asks(&rt, rm, &calls)?;
    assert!(rt; rm.in_doubt_len() == 1);
    asks(&rt, rm, &[(CallKind::Commit, B, TMNOFLAGS, 0)])?;
    assert!(rt; rm.heuristic(&Xid::parse(B)?, How::Com) == Err(RmFault::Script));
    Ok(())
}
