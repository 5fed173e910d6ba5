//! `xa_line`: a call goes over a line, and its answer comes back.

ghost use Rattle.std.specs.Prelude.{◌≡◌, Some, IfOk};
ghost use Rattle.xa_base.specs.declared.answer.Answer.TheVariants.{Ret};
ghost use Rattle.xa_base.specs.declared.call.Call.TheVariants.{OpenRm};
ghost use Rattle.xa_base.specs.declared.code.Code.TheVariants.{Success};

use std::alloc::Global;
use xa_base::{Answer, Call, Code, Memory};
use xa_line::Line;

/// Opens a new line: xa_open is issued and taken, and its answer XA_OK is heard.
pub fn opened(alloc: Global) -> Result<Option<(Call, Answer)>, Memory>
    ensures { IfOk result (λ heard. heard ≡ Some (OpenRm, Ret Success)) }
{
    let mut line = Line::new(alloc)?;
    let _issued = line.issue(Call::OpenRm);
    if let Some(call) = line.take() {
        let _answered = line.answer(call, Answer::Ret(Code::Success));
    }
    Ok(line.hear())
}
