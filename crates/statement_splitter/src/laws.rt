//! Laws of the calls of a splitter, and of whole files.
ghost use Rattle.std.specs.Prelude.{◌≡◌, codes, Some, None};
ghost use Rattle.statement_splitter.specs.Laws.{AGivenPieceIsTheFirst, NoneIsLost, TooLongStaysSo, quoting_file, quoting_pieces, delimited_file, delimited_pieces};
ghost use Rattle.splitter_forms.specs.Pieces.{pieces, unread_file, begun_size, last};

/// A law: a statement that is given is the first of the file's, whatever bytes follow. Does nothing.
#[inline]
pub fn a_given_piece_is_the_first()
    ensures { AGivenPieceIsTheFirst }
{}

/// A law: where none is given, none is ended, and none is lost. Does nothing.
#[inline]
#[tactic(auto, using(crate::proofs::Wholes::none_lost))]
pub fn none_is_lost()
    ensures { NoneIsLost }
{}

/// A law: a statement that is too long stays so with more bytes. Does nothing.
#[inline]
#[tactic(auto, using(crate::proofs::Wholes::still_passes))]
pub fn too_long_stays_so()
    ensures { TooLongStaysSo }
{}

/// A law: the statements of two files, and where one is begun in two more, by their definition. Does
/// nothing.
#[inline]
pub fn files_are_divided_so()
    ensures comments_and_quotes { pieces (unread_file quoting_file) ≡ quoting_pieces }
    ensures delimiters { pieces (unread_file delimited_file) ≡ delimited_pieces }
    ensures statement_begun { begun_size (last (unread_file (codes "x; y"))) ≡ Some 3 }
    ensures comment_begun { begun_size (last (unread_file (codes "x; /* y"))) ≡ None }
{}
