//! Laws of dumps.
ghost use Rattle.dumper_cli.specs.Course.{AConversationHasOneOutcome, AllIsSaid};

/// A law: whatever bytes a server sends in a dump, of all columns and rows and the ends that the
/// dump can come to by these bytes, no two come. The columns and the rows, and the fault, are one
/// each. Does nothing.
#[inline]
#[tactic(auto, using(crate::proofs::Outcomes::one_outcome))]
pub fn a_conversation_has_one_outcome()
    ensures { AConversationHasOneOutcome }
{}

/// A law: where the end of the rows was heard, the messages that were sent are those of the login
/// and of the four statements, and no others. Does nothing.
#[inline]
#[tactic(auto, using(crate::proofs::Sayings::all_is_said))]
pub fn all_is_said()
    ensures { AllIsSaid }
{}
