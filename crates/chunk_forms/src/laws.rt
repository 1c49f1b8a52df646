//! Laws of chunks, for keys of one column and for keys of several. Nothing here runs: the contracts are the
//! laws.
ghost use Rattle.chunk_forms.specs.Laws.{BoundsRise, KeysAreCut, KeysAreInOneChunk, WideBoundsRise, WideKeysAreCut, WideKeysAreInOneChunk};

/// Of the chunks between bounds that rise, exactly one holds a key.
pub fn keys_are_in_one_chunk()
    ensures { KeysAreInOneChunk }
{}

/// Keys that rise, cut into chunks of r rows: how many bounds there are, and which keys each chunk has.
pub fn keys_are_cut()
    ensures { KeysAreCut }
{}

/// The bounds of keys that rise do so too.
pub fn bounds_rise()
    ensures { BoundsRise }
{}

/// Of the chunks between bounds of several columns that rise, exactly one holds a key.
pub fn wide_keys_are_in_one_chunk()
    ensures { WideKeysAreInOneChunk }
{}

/// Keys of several columns that rise, cut into chunks of r rows: how many bounds there are, and which keys
/// each chunk has.
pub fn wide_keys_are_cut()
    ensures { WideKeysAreCut }
{}

/// The bounds of keys of several columns that rise do so too.
pub fn wide_bounds_rise()
    ensures { WideBoundsRise }
{}
