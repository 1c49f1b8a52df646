//! Chunks from the bounds between them.
ghost use Rattle.std.specs.Prelude.{◌≡◌, ◌∷◌, ◌++◌, ◌-◌, [], length, slice_get, IfOk, OnOk, OnErr};
ghost use Rattle.chunk_forms.specs.Chunk.{chunks_between};

use chunk_forms::KeyRange;
use plain_data::{OutOfMemory, PlainList};
use std::alloc::Global;
use std::marker::Model;

/// The chunks between bounds that are given one after another, for keys of one column or of several.
/// Contracts see it as the list of the bounds that were given.
#[derive(Drop)]
pub struct ChunkBuilder<K> {
    ended: PlainList<KeyRange<K>>,
    last: Option<K>,
}

impl<K> Model for ChunkBuilder<K> {
    ghost use Rattle.std.specs.Prelude.{List};
    ghost use Rattle.std.specs.Coded.{coded_list};
    ghost use Rattle.key_chunks.specs.Builder.{AreEnded, upper_bounds};

    ghost Value = { List K };

    ghost coded = { coded_list K.code };

    ghost view = { λ b. upper_bounds b.ended };

    ghost invariant = { λ b. AreEnded b.ended b.last };
}

impl<K: Copy + Drop> ChunkBuilder<K> {
    /// No bound yet: there is one chunk, which is open at both ends. Takes no memory.
    pub fn new(alloc: Global) -> ChunkBuilder<K>
        ensures { result ≡ [] }
    {
        ChunkBuilder {
            ended: PlainList::new(alloc),
            last: None,
        }
    }

    /// The last bound that was given, above which the last chunk begins. Takes no memory.
    pub fn last(&self) -> Option<K>
        ensures { result ≡ slice_get self.now (length self.now - 1) }
    {
        self.last
    }

    /// How many bounds were given. There is one chunk more. Takes no memory.
    #[tactic(auto, using(crate::proofs::EndedChunks::bound_count))]
    pub fn count(&self) -> usize
        ensures { result ≡ length self.now }
    {
        self.ended.as_slice().len()
    }

    /// Ends the last chunk at this bound, above which the next begins. A refusal leaves the bounds as they
    /// were.
    #[tactic(auto, using(crate::proofs::EndedChunks::bounds_after, crate::proofs::EndedChunks::ended_after))]
    pub fn end_at(&mut self, bound: K) -> Result<(), OutOfMemory>
        ensures ok { OnOk result (self.new ≡ self.old ++ bound ∷ []) }
        ensures err { OnErr result (self.new ≡ self.old) }
    {
        self.ended.push(KeyRange {
            above: self.last,
            upto: Some(bound),
        })?;
        self.last = Some(bound);
        Ok(())
    }

    /// The chunks between the bounds, the last of which has no upper bound. It is refused only for want of
    /// memory, and the bounds are given up then.
    #[tactic(auto, using(crate::proofs::EndedChunks::whole))]
    pub fn into_chunks(self) -> Result<PlainList<KeyRange<K>>, OutOfMemory>
        ensures { IfOk result (λ made. made ≡ chunks_between self) }
    {
        let ChunkBuilder { mut ended, last } = self;
        ended.push(KeyRange {
            above: last,
            upto: None,
        })?;
        Ok(ended)
    }
}
