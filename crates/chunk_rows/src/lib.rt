//! What an honest server answers to the queries of chunks, as laws. Nothing here runs: the contracts are
//! the laws.
#![tactic(auto)]

ghost use Rattle.chunk_rows.specs.ChunkRows.{ChunksAnswerInTurn, KeysAnswerBounds, WideChunksAnswerInTurn, WideKeysAnswerBounds};

/// The rows that answer the query of a chunk, where a table's rows in the order of its key are cut into
/// chunks of r rows: of chunk i, from 0 on, those from number i times r on, r of them or what is left.
pub fn chunks_answer_in_turn()
    ensures { ChunksAnswerInTurn }
{}

/// The same by a key of two to four columns.
pub fn wide_chunks_answer_in_turn()
    ensures { WideChunksAnswerInTurn }
{}

/// The query for the r-th key above the lower bound of a chunk finds its upper bound, and none where the
/// chunk is the last.
pub fn keys_answer_bounds()
    ensures { KeysAnswerBounds }
{}

/// The same by a key of two to four columns.
pub fn wide_keys_answer_bounds()
    ensures { WideKeysAnswerBounds }
{}
