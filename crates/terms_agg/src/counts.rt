//! Counters of words by their places among those of a field.
ghost use Rattle.std.specs.Prelude.{◌≡◌, ℕ, ◌+◌, ◌<◌, ◌==◌, [], ◌∷◌, IfOk, List as AnyList, OnErr, OnOk, Some, false, flat_map, length, map, replicate, slice_get, slice_index_or};
ghost use Rattle.std.specs.List.{slice_set};
ghost use Rattle.agg_model.specs.declared.aggregation.Agg.{Agg};
ghost use Rattle.agg_model.specs.declared.mapping.FieldKind.TheVariants.{Keyword};
ghost use Rattle.agg_evaluation.specs.Counters.{raised, raised_by};
ghost use Rattle.agg_evaluation.specs.Rows.{PlacedRow, row_of};
ghost use Rattle.agg_evaluation.specs.Shard.{collected_node};
ghost use Rattle.shard_columns.specs.Built.{IsShard};
ghost use Rattle.shard_columns.specs.Dictionary.{words_of};
ghost use Rattle.terms_agg.specs.Counts.{AreSizes, IsPlainTerms, counted, counted_bucket, counted_node, keys_in_row, new_bucket_bytes, word_key};

use agg_model::costs::BUCKET_BYTES;
use agg_model::{Bucket, Key, List, Node, Text};
use shard_columns::Shard;
use std::alloc::{AllocError, Global};
use std::marker::Model;

/// A counter for each word of a keyword field of a shard, by the word's place among them (Elasticsearch Reference 8, 'Terms
/// aggregation', execution hint: global ordinals). Contracts see the list of the counters.
#[derive(Drop)]
pub struct Counts {
    counters: Vec<u64>,
}

impl Model for Counts {
    ghost use Rattle.std.specs.Prelude.{List, ℕ};

    ghost Value = { List ℕ };

    ghost view = { λ c. c.counters.items };
}

// A bucket without children.
fn bucket_of(alloc: Global, key: Key, count: u64) -> Bucket
    ensures { result ≡ counted_bucket (key, count) }
{
    Bucket {
        key,
        count,
        covered: 0,
        children: List::new(alloc),
    }
}

impl Counts {
    /// All counters are 0. It takes 8 bytes for each word.
    pub fn new(alloc: Global, words: u32) -> Result<Counts, AllocError>
        ensures { IfOk result (λ counts. counts ≡ replicate words 0) }
    {
        let counters = vec![in alloc; 0; words as usize]?;
        Ok(Counts { counters })
    }

    /// The counters, in the order of the words.
    pub fn counters(&self) -> &[u64]
        ensures { result.now ≡ self.now }
    {
        self.counters.as_slice()
    }

    /// Raises the counter of the word at this place by one, and tells whether it was 0. A place behind the last word and a
    /// counter that is full are answered as want of memory, and change nothing. Time is constant, and no memory is taken.
    pub fn raise(&mut self, ordinal: usize) -> Result<bool, AllocError>
        ensures many { length self.new ≡ length self.old }
        ensures within { OnOk result (ordinal < length self.old) }
        ensures counters { OnOk result (self.new ≡ slice_set self.old ordinal (slice_index_or self.old ordinal 0 + 1)) }
        ensures first { IfOk result (λ first. first ≡ (slice_index_or self.old ordinal 0 == 0)) }
        ensures err { OnErr result (self.new ≡ self.old) }
    {
        if ordinal >= self.counters.len() {
            return Err(AllocError);
        }
        let before = self.counters[ordinal];
        self.counters[ordinal] = before.checked_add(1).ok_or(AllocError)?;
        Ok(before == 0)
    }

    // Raises the counter of the word at this place, and answers what a new bucket costs where it was 0.
    fn count_word(&mut self, shard: &Shard, field: u32, ordinal: u32) -> Result<u64, AllocError>
        requires there { ordinal < length (words_of field shard.now.rows) }
        requires counters { length self.old ≡ length (words_of field shard.now.rows) }
        ensures many { length self.new ≡ length self.old }
        ensures counters { OnOk result (counted (words_of field shard.now.rows) self.new
            ≡ raised (word_key (words_of field shard.now.rows) ordinal) (counted (words_of field shard.now.rows) self.old)) }
        ensures bytes { IfOk result (λ bytes. bytes ≡ new_bucket_bytes (counted (words_of field shard.now.rows) self.old)
            (word_key (words_of field shard.now.rows) ordinal ∷ [])) }
    {
        if !self.raise(ordinal as usize)? {
            return Ok(0);
        }
        BUCKET_BYTES
            .checked_add(shard.word_len(field, ordinal))
            .ok_or(AllocError)
    }

    /// Raises by one the counter of each word that the row has of the field, which the row has once, and answers what the buckets
    /// of those cost whose counters were 0. A counter or a sum of more than 64 bits is answered as want of memory; some of the
    /// row's words may be counted then. It takes time in proportion to the row's values, and no memory.
    pub fn count(&mut self, shard: &Shard, field: u32, row: u32) -> Result<u64, AllocError>
        requires built { IsShard shard.now }
        requires keyword { slice_get shard.now.kinds field ≡ Some Keyword }
        requires in_range { row < length shard.now.rows }
        requires counters { length self.old ≡ length (words_of field shard.now.rows) }
        ensures many { length self.new ≡ length self.old }
        ensures counters { OnOk result (counted (words_of field shard.now.rows) self.new
            ≡ raised_by (keys_in_row field (row_of shard.now.rows row)) (counted (words_of field shard.now.rows) self.old)) }
        ensures bytes { IfOk result (λ bytes. bytes ≡ new_bucket_bytes (counted (words_of field shard.now.rows) self.old)
            (keys_in_row field (row_of shard.now.rows row))) }
    {
        let mut bytes: u64 = 0;
        for ordinal in shard.ordinals(row, field) {
            let more = self.count_word(shard, field, *ordinal)?;
            bytes = bytes.checked_add(more).ok_or(AllocError)?;
        }
        Ok(bytes)
    }

    /// The buckets of the words whose counters are not 0, ascending by key, none of which is cut. Where rows were counted, this
    /// is the node of those rows, by terms of the field that have no children. It takes time in proportion to the words, and
    /// memory in proportion to the buckets and their keys.
    pub fn into_node(self, alloc: Global, shard: &Shard, field: u32) -> Result<Node, AllocError>
        requires built { IsShard shard.now }
        requires counters { length self ≡ length (words_of field shard.now.rows) }
        ensures node { IfOk result (λ node. node ≡ counted_node (counted (words_of field shard.now.rows) self)) }
        ensures of_counted_rows { IfOk result (λ node. (a : Agg) (roots rows : AnyList PlacedRow) →
            IsPlainTerms field a →
            counted (words_of field shard.now.rows) self ≡ raised_by (flat_map (keys_in_row field) rows) [] →
            node ≡ collected_node false shard.now.rows roots a rows) }
        ensures of_sizes { IfOk result (λ node. (a : Agg) (roots : AnyList PlacedRow) (rows : AnyList ℕ) →
            IsPlainTerms field a → slice_get shard.now.kinds field ≡ Some Keyword →
            AreSizes field (words_of field shard.now.rows) (map (row_of shard.now.rows) rows) self →
            node ≡ collected_node false shard.now.rows roots a (map (row_of shard.now.rows) rows)) }
    {
        let mut buckets = Vec::new(alloc);
        for ordinal in 0..shard.words(field) {
            let count = self.counters[ordinal as usize];
            if count > 0 {
                let key = Key::Word(Text::of(alloc, shard.text(field, ordinal))?);
                buckets.push(bucket_of(alloc, key, count))?;
            }
        }
        Ok(Node::Keyed {
            buckets: List::from_vec(buckets),
            error: 0,
            full: 0,
            cut: 0,
        })
    }
}
