//! Examples from outside: the numbers and flags of XA's header, and texts and lengths of
//! identifiers.

use std::test::Fail;
use xa_base::{Answer, Branch, Call, CallKind, Code, Gtrid, How, Page, RbCode, Xid, XidFault};

/// Incarnation 1, sequence 1, thread 0, resource manager 1.
const SECOND_BRANCH: Branch = Branch {
    gtrid: Gtrid {
        incarnation: 1,
        sequence: 1,
    },
    thread: 0,
    rm: 1,
};

#[test]
fn writes_and_reads_texts(rt: HostRuntime) -> Result<(), Fail> {
    let xid = SECOND_BRANCH.xid();
    let text = xid.text(rt.alloc())?;
    assert!(rt; text.as_str() == "7:00000000000000010000000000000001:0000000000000001");
    assert!(rt; Xid::parse(text.as_str())? == xid);
    assert!(rt; xid.branch() == Some(SECOND_BRANCH));
    Ok(())
}

#[test]
fn reads_no_other_texts(rt: HostRuntime) {
    let texts = [
        ("", Some(XidFault::Text)),
        ("7", Some(XidFault::Text)),
        ("7:00", Some(XidFault::Text)),
        ("7:00:00:", Some(XidFault::Text)),
        (":00:00", Some(XidFault::Text)),
        ("07:00:00", Some(XidFault::Text)),
        ("-0:00:00", Some(XidFault::Text)),
        ("+7:00:00", Some(XidFault::Text)),
        (" 7:00:00", Some(XidFault::Text)),
        ("7:0A:00", Some(XidFault::Text)),
        ("7:0:00", Some(XidFault::Text)),
        ("7:00:0g", Some(XidFault::Text)),
        ("2147483648:00:00", Some(XidFault::Text)),
        ("-2147483649:00:00", Some(XidFault::Text)),
        ("-1::", Some(XidFault::NullFormat)),
        ("7::", Some(XidFault::GtridLength)),
        ("0:00:", Some(XidFault::BqualLength)),
        ("-2147483648:00:ff", None),
    ];
    for (text, fault) in texts {
        assert!(rt; Xid::parse(text).err() == fault, "at {text}");
    }
}

#[test]
fn takes_parts_of_64_bytes(rt: HostRuntime) {
    let lengths = [
        (64, 64, None),
        (65, 64, Some(XidFault::GtridLength)),
        (64, 65, Some(XidFault::BqualLength)),
    ];
    let bytes = [0; 65];
    for (gtrid, bqual, fault) in lengths {
        let made = Xid::new(7, &bytes[..gtrid.min(65)], &bytes[..bqual.min(65)]);
        assert!(rt; made.err() == fault, "at {gtrid} and {bqual}");
    }
}

#[test]
fn orders_by_format_then_bytes(rt: HostRuntime) -> Result<(), Fail> {
    let rising = [
        ("-2:ff:ff", "1:01:02"),
        ("1:01:02", "7:01:02"),
        ("7:01:02", "7:01:03"),
        ("7:01:03", "7:0101:02"),
        ("7:0101:02", "7:02:01"),
        ("7:02:01", "8:00:00"),
        ("8:00:00", "10:00:00"),
    ];
    for (before, after) in rising {
        assert!(rt;
            Xid::parse(before)? < Xid::parse(after)?,
            "{before} before {after}"
        );
    }
    Ok(())
}

#[test]
fn numbers_codes_as_xa_does(rt: HostRuntime) {
    let codes = [
        (100, Code::RolledBack(RbCode::Rollback)),
        (101, Code::RolledBack(RbCode::CommFail)),
        (102, Code::RolledBack(RbCode::Deadlock)),
        (103, Code::RolledBack(RbCode::Integrity)),
        (104, Code::RolledBack(RbCode::Other)),
        (105, Code::RolledBack(RbCode::Proto)),
        (106, Code::RolledBack(RbCode::Timeout)),
        (107, Code::RolledBack(RbCode::Transient)),
        (8, Code::Heuristic(How::Haz)),
        (7, Code::Heuristic(How::Com)),
        (6, Code::Heuristic(How::Rb)),
        (5, Code::Heuristic(How::Mix)),
        (4, Code::Retry),
        (3, Code::ReadOnly),
        (0, Code::Success),
        (-3, Code::RmError),
        (-4, Code::NotAnXid),
        (-5, Code::Invalid),
        (-6, Code::Protocol),
        (-7, Code::RmFailed),
        (-8, Code::DuplicateXid),
    ];
    for (number, code) in codes {
        let is_code = code.number() == number && Code::from_number(number) == Some(code);
        assert!(rt; is_code, "at {number}");
    }
    for number in [-9, -2, -1, 1, 2, 9, 99, 108] {
        assert!(rt; Code::from_number(number).is_none(), "at {number}");
    }
}

/// The flags that each kind of call takes.
const TAKEN: [(CallKind, u32); 15] = [
    (CallKind::OpenRm, 0),
    (CallKind::CloseRm, 0),
    (CallKind::Start, 0),
    (CallKind::Start, 0x0020_0000),
    (CallKind::End, 0x0400_0000),
    (CallKind::End, 0x2000_0000),
    (CallKind::Prepare, 0),
    (CallKind::Commit, 0),
    (CallKind::Commit, 0x4000_0000),
    (CallKind::Rollback, 0),
    (CallKind::Forget, 0),
    (CallKind::Recover, 0),
    (CallKind::Recover, 0x0080_0000),
    (CallKind::Recover, 0x0100_0000),
    (CallKind::Recover, 0x0180_0000),
];

#[test]
fn takes_the_flags_of_xa(rt: HostRuntime) {
    let words = [
        0,
        0x0020_0000,
        0x0080_0000,
        0x0100_0000,
        0x0180_0000,
        0x0200_0000,
        0x0400_0000,
        0x0800_0000,
        0x1000_0000,
        0x2000_0000,
        0x2400_0000,
        0x4000_0000,
    ];
    for (kind, _) in TAKEN {
        for flags in words {
            let is_taken = TAKEN.contains(&(kind, flags));
            assert!(rt;
                call_of(kind, flags).is_ok() == is_taken,
                "{kind:?} with {flags}"
            );
        }
    }
}

/// The call of a kind with these flags, and with an identifier and a count if it takes them.
fn call_of(kind: CallKind, flags: u32) -> Result<Call, Code> {
    let xid = SECOND_BRANCH.xid();
    match kind {
        CallKind::OpenRm | CallKind::CloseRm => Call::of(kind, None, flags, None),
        CallKind::Recover => Call::of(kind, None, flags, Some(8)),
        _ => Call::of(kind, Some(xid), flags, None),
    }
}

#[test]
fn copies_answers(rt: HostRuntime) -> Result<(), Fail> {
    let alloc = rt.alloc();
    let page = Page::new(Vec::from_array(alloc, [SECOND_BRANCH.xid()])?);
    assert!(rt; Answer::Page(page).copy(alloc)?.number() == 1);
    assert!(rt; Answer::Ret(Code::Protocol).copy(alloc)?.number() == -6);
    Ok(())
}
