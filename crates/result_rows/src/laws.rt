//! What the reader's steps come to over whole messages.
ghost use Rattle.wire_forms.specs.Reply.{AFrontTellsAReply};
ghost use Rattle.wire_forms.specs.ResultSet.{ResultSetsAreTaken};

/// The messages of a whole result set are exactly those that a [`RowReader`](crate::RowReader) takes
/// for one: a number of columns from [`RowReader::first`](crate::RowReader::first), and from
/// [`RowReader::more`](crate::RowReader::more) the definitions, the EOF after them where result sets
/// end by EOF packets, the rows in order, and the end.
pub fn a_whole_result_set_is_what_the_reader_takes()
    ensures { ResultSetsAreTaken }
{}

/// A law: the first 1,024 bytes of a reply's first message tell whether it is an OK, an ERR with what
/// is kept of it, a number of columns, or none of these. Does nothing.
#[tactic(auto, using(crate::proofs::Fronts::front_tells))]
pub fn a_front_tells_a_reply()
    ensures { AFrontTellsAReply }
{}
