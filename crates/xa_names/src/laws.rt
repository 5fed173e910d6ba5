//! Laws on names. These functions do nothing: each contract is a theorem.

ghost use Rattle.xa_names.specs.Laws.{BranchesAreRead, BranchesHaveNames, LinesStay, NamesAreApart, OthersAreForeign, OwnHaveName, RenamesBack, StaysWithoutName, WrittenCalls};

use xa_requests::laws::words_have_one_spelling;

/// Under any name an identifier stands for the one that stands for it.
pub fn renaming_goes_back()
    ensures { RenamesBack }
{}

/// The names of managers part the identifiers of their branches:
///
/// - `read`: an identifier that has the manager's name is read as its branch;
/// - `named`: one that is read as its branch has its name;
/// - `own`: what is read as a branch is meant as one of the manager's name;
/// - `apart`: no identifier that a manager gives out has two names;
/// - `foreign`: what has another name, or none, is read as no branch of this manager.
pub fn names_part_identifiers()
    ensures read { BranchesAreRead }
    ensures named { BranchesHaveNames }
    ensures own { OwnHaveName }
    ensures apart { NamesAreApart }
    ensures foreign { OthersAreForeign }
{}

/// Without a name each identifier stands for itself (`xids`), and each line is meant as it is
/// (`lines`).
pub fn without_a_name_nothing_changes()
    ensures xids { StaysWithoutName }
    ensures lines { LinesStay }
{
    words_have_one_spelling();
}

/// What a coordinator of a name writes of a call on a branch, where it was issued or waits, is the
/// call on the identifier that stands for the branch's own.
pub fn calls_are_written_renamed()
    ensures { WrittenCalls }
{
    words_have_one_spelling();
}
