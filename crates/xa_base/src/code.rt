//! Return codes (XA, section 4.5, Return Codes).
ghost use Rattle.std.specs.Prelude.{◌≡◌, Some, IfSome};
ghost use Rattle.xa_base.specs.Code.{code_number, rb_number, how_number, how_of_number};
ghost use Rattle.xa_base.specs.declared.code.Code.{Code};
ghost use Rattle.xa_base.specs.declared.code.How.{How};
ghost use Rattle.xa_base.specs.declared.code.RbCode.{RbCode};

/// Why a resource manager rolled a branch back: the codes from XA_RBBASE to XA_RBEND (XA, section
/// 4.5).
#[derive(Clone, Copy, Debug, PartialEq, Eq)]
pub enum RbCode {
    /// XA_RBROLLBACK, 100: for no reason that is told.
    Rollback,
    /// XA_RBCOMMFAIL, 101: a communication failed.
    CommFail,
    /// XA_RBDEADLOCK, 102: a deadlock was found.
    Deadlock,
    /// XA_RBINTEGRITY, 103: the resource would have become inconsistent.
    Integrity,
    /// XA_RBOTHER, 104: another reason.
    Other,
    /// XA_RBPROTO, 105: a protocol error inside the resource manager.
    Proto,
    /// XA_RBTIMEOUT, 106: the branch took too long.
    Timeout,
    /// XA_RBTRANSIENT, 107: the branch may be tried again.
    Transient,
}

/// How a resource manager ended a prepared branch by itself (XA, section 2.3.3, Heuristic Branch
/// Completion).
#[derive(Clone, Copy, Debug, PartialEq, Eq)]
pub enum How {
    /// XA_HEURCOM, 7: it committed the branch.
    Com,
    /// XA_HEURRB, 6: it rolled the branch back.
    Rb,
    /// XA_HEURMIX, 5: it did both, in parts.
    Mix,
    /// XA_HEURHAZ, 8: it may have done either.
    Haz,
}

/// The return code of a call (XA, section 4.5). XA_NOMIGRATE, XAER_ASYNC and XAER_OUTSIDE aren't
/// used here.
#[derive(Clone, Copy, Debug, PartialEq, Eq)]
pub enum Code {
    /// XA_RBROLLBACK to XA_RBTRANSIENT, 100 to 107: the branch is rolled back, or can only be
    /// rolled back.
    RolledBack(RbCode),
    /// XA_HEURMIX to XA_HEURHAZ, 5 to 8: the resource manager ended the branch by itself.
    Heuristic(How),
    /// XA_RETRY, 4: the branch can't be committed yet.
    Retry,
    /// XA_RDONLY, 3: the branch changed nothing, and is over.
    ReadOnly,
    /// XA_OK, 0.
    Success,
    /// XAER_RMERR, -3: the resource manager failed at the call.
    RmError,
    /// XAER_NOTA, -4: no branch has the identifier.
    NotAnXid,
    /// XAER_INVAL, -5: the arguments aren't those of the call.
    Invalid,
    /// XAER_PROTO, -6: the call isn't for the state that the branch is in.
    Protocol,
    /// XAER_RMFAIL, -7: the resource manager isn't there.
    RmFailed,
    /// XAER_DUPID, -8: a branch has the identifier already.
    DuplicateXid,
}

impl RbCode {
    /// The code's number in XA, 100 to 107.
    pub fn number(self) -> i32
        ensures { result ≡ rb_number self }
    {
        match self {
            RbCode::Rollback => 100,
            RbCode::CommFail => 101,
            RbCode::Deadlock => 102,
            RbCode::Integrity => 103,
            RbCode::Other => 104,
            RbCode::Proto => 105,
            RbCode::Timeout => 106,
            RbCode::Transient => 107,
        }
    }
}

impl How {
    /// The number of the heuristic code in XA, 5 to 8.
    pub fn number(self) -> i32
        ensures { result ≡ how_number self }
    {
        match self {
            How::Haz => 8,
            How::Com => 7,
            How::Rb => 6,
            How::Mix => 5,
        }
    }

    /// The heuristic end whose code has a number, or none if none has it.
    pub fn from_number(number: i32) -> Option<How>
        ensures number { result ≡ how_of_number number }
        ensures inverse { (how : How) → how_number how ≡ number → result ≡ Some how }
        ensures found { IfSome result (λ how. how_number how ≡ number) }
    {
        match number {
            8 => Some(How::Haz),
            7 => Some(How::Com),
            6 => Some(How::Rb),
            5 => Some(How::Mix),
            _ => None,
        }
    }
}

impl Code {
    /// The code's number in XA, -8 to 107.
    pub fn number(self) -> i32
        ensures { result ≡ code_number self }
    {
        match self {
            Code::RolledBack(code) => code.number(),
            Code::Heuristic(how) => how.number(),
            Code::Retry => 4,
            Code::ReadOnly => 3,
            Code::Success => 0,
            Code::RmError => -3,
            Code::NotAnXid => -4,
            Code::Invalid => -5,
            Code::Protocol => -6,
            Code::RmFailed => -7,
            Code::DuplicateXid => -8,
        }
    }

    /// The code of a number, or none if no code of this table has it.
    pub fn from_number(number: i32) -> Option<Code>
        ensures inverse { (code : Code) → code_number code ≡ number → result ≡ Some code }
        ensures found { IfSome result (λ code. code_number code ≡ number) }
    {
        let code = match number {
            100 => Code::RolledBack(RbCode::Rollback),
            101 => Code::RolledBack(RbCode::CommFail),
            102 => Code::RolledBack(RbCode::Deadlock),
            103 => Code::RolledBack(RbCode::Integrity),
            104 => Code::RolledBack(RbCode::Other),
            105 => Code::RolledBack(RbCode::Proto),
            106 => Code::RolledBack(RbCode::Timeout),
            107 => Code::RolledBack(RbCode::Transient),
            8 => Code::Heuristic(How::Haz),
            7 => Code::Heuristic(How::Com),
            6 => Code::Heuristic(How::Rb),
            5 => Code::Heuristic(How::Mix),
            4 => Code::Retry,
            3 => Code::ReadOnly,
            0 => Code::Success,
            -3 => Code::RmError,
            -4 => Code::NotAnXid,
            -5 => Code::Invalid,
            -6 => Code::Protocol,
            -7 => Code::RmFailed,
            -8 => Code::DuplicateXid,
            _ => return None,
        };
        Some(code)
    }
}
