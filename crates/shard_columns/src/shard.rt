ghost use Rattle.std.specs.Prelude.{◌≡◌, ◌↔◌, ◌<◌, ◌+◌, ◌≤◌, ◌^◌, ℕ, IsTrue, slice_index, IfOk, IfSome, IfNone, IsNone, length, map, option_map, [], Some, slice_get, slice_index_or};
ghost use Rattle.shard_columns.specs.Values.{shown, words_in};
ghost use Rattle.shard_columns.specs.Drafted.{AreMostFrom, HoldsSome, IsStoredFrom, IsDraftFor, IsFinishedFrom};
ghost use Rattle.shard_columns.specs.Counts.{most_values};
ghost use Rattle.shard_columns.specs.Lent.{wholes_in, flags_in, word_at, holds_numbers};
ghost use Rattle.agg_model.specs.declared.row.Scalar.TheVariants.{Whole, Word, Flag};
ghost use Rattle.agg_model.specs.declared.limits.TheConstants.{MAX_PATHS, WEIGHT_LIMIT};
ghost use Rattle.agg_model.specs.Contexts.{parents_before};
ghost use Rattle.agg_evaluation.specs.DocumentFits.{all_fit};
ghost use Rattle.agg_evaluation.specs.Rows.{row_of, roots, rows_of_documents, values_of, beneath};
ghost use Rattle.agg_evaluation.specs.RowsWeight.{rows_weight};
ghost use Rattle.shard_columns.specs.Dictionary.{words_of, as_values, NoRowHas, longest_word};
ghost use Rattle.agg_evaluation.specs.Ceiling.{greatest_of};
ghost use Rattle.agg_evaluation.specs.ColumnBytes.{shard_bytes};
ghost use Rattle.shard_columns.specs.Homes.{home_count, AreHomes};
ghost use Rattle.shard_columns.specs.Kinds.{AreOfKind};
ghost use Rattle.shard_columns.specs.Beneath.{IsDirectlyBeneath, IsEnclosedBy};
ghost use Rattle.agg_model.specs.declared.mapping.FieldKind.TheVariants.{Keyword, Boolean};
ghost use Rattle.shard_columns.specs.Cell.{scalar_of};

use crate::columns::{Column, column_at, columns, flags_at, ordinals_at, span_at, wholes_at};
use crate::contexts::{context, numbers_by_context, numbers_of};
use crate::draft::ShardDraft;
use crate::entries::Entries;
use crate::homes::{Homes, homes_of};
use crate::layout::Origin;
use crate::search::{Part, find_word, numbers_between};
use crate::values::{Drafts, Typed, most_of_each};
use crate::words::{WordNumbers, all_bytes, dictionaries, longest_of_each};
use agg_model::{Document, Field, FieldKind, List, Mapping, NestedPath};
use packed_texts::PackedTexts;
use std::alloc::{AllocError, Global};
use std::marker::Model;

/// The documents of one shard as columns, which nothing changes. Its rows are numbered in the order of the documents, each
/// before those that it encloses. Contracts see it as the kinds and contexts of the fields and the parents of the nested
/// paths of its mapping, and its rows with their places.
#[derive(Drop)]
pub struct Shard {
    kinds: Vec<FieldKind>,
    contexts: Vec<u32>,
    parents: Vec<u32>,
    ids: PackedTexts,
    rows: Entries,
    homes: Homes,
    ends: Vec<u32>,
    numbers: Vec<List<u32>>,
    words: Vec<PackedTexts>,
    // The bytes of the longest word of each field.
    longest: Vec<usize>,
    // How many values a row has at most of each field.
    most: Vec<u32>,
    columns: Vec<Column>,
    values: usize,
}

impl Model for Shard {
    ghost use Rattle.shard_columns.specs.Columns.{Columns};

    ghost Value = { Columns };

    ghost use Rattle.shard_columns.specs.Shard.{columns_of, IsSound};

    ghost view = { columns_of };

    ghost invariant = { IsSound };
}

/// The values of all rows as columns, with the words of each field, and how many values they are.
#[derive(Drop)]
struct Stored {
    words: Vec<PackedTexts>,
    longest: Vec<usize>,
    most: Vec<u32>,
    columns: Vec<Column>,
    count: usize,
}

// The dictionaries and columns of the values of rows with these homes.
fn store(
    alloc: Global,
    numbers: WordNumbers,
    drafts: Drafts,
    homes: &Homes,
) -> Result<Stored, AllocError>
    requires holds { HoldsSome (home_count homes.now) numbers drafts }
    requires apart { AreHomes homes.now }
    ensures stored { IfOk result (λ s. IsStoredFrom homes.now numbers drafts s.words.items s.columns.items) }
    ensures longest { IfOk result (λ s. s.longest.items ≡ map (λ ws. greatest_of (map length ws)) s.words.items) }
    ensures most { IfOk result (λ s. AreMostFrom numbers drafts s.most.items) }
    ensures counted { IfOk result (λ s. s.count ≡ drafts.count) }
{
    let (words, ranks) = dictionaries(alloc, numbers)?;
    let longest = longest_of_each(alloc, words.as_slice())?;
    let Drafts {
        columns: drafts,
        count,
    } = drafts;
    let most = most_of_each(alloc, drafts.as_slice())?;
    let columns = columns(alloc, drafts, ranks.as_slice(), homes)?;
    Ok(Stored {
        words,
        longest,
        most,
        columns,
        count,
    })
}

// The bytes of the text at this place; none where there are fewer.
fn bytes_at(texts: &PackedTexts, place: usize) -> &[u8]
    ensures { result.now ≡ slice_index_or texts.now place [] }
{
    if place < texts.len() {
        texts.get(place).as_bytes()
    } else {
        &[]
    }
}

fn count_of(words: &[PackedTexts], field: u32) -> usize
    ensures { result ≡ length (slice_index_or words.now field []) }
{
    match words.get(field as usize) {
        Some(words) => words.len(),
        None => 0,
    }
}

// A place behind the words, which no value has, stands for 0.
fn word_cell(words: &[PackedTexts], field: u32, place: u32) -> Cell<'_>
    ensures { scalar_of result ≡ shown (slice_index_or words.now field []) place }
{
    match words.get(field as usize) {
        Some(words) => cell_of(words, place as usize),
        None => Cell::Whole(0),
    }
}

fn cell_of(words: &PackedTexts, place: usize) -> Cell<'_>
    ensures { scalar_of result ≡ shown words.now place }
{
    if place < words.len() {
        Cell::Word(words.get(place))
    } else {
        Cell::Whole(0)
    }
}

fn contexts(alloc: Global, fields: &[Field]) -> Result<Vec<u32>, AllocError>
    ensures { IfOk result (λ v. v.items ≡ map (λ f. f.context) fields.now) }
{
    fields.iter().map(|field| field.context).collect(alloc)
}

fn parents(alloc: Global, nested: &[NestedPath]) -> Result<Vec<u32>, AllocError>
    ensures { IfOk result (λ v. v.items ≡ map (λ p. p.parent) nested.now) }
{
    nested.iter().map(|path| path.parent).collect(alloc)
}

impl ShardDraft {
    /// The shard of the documents that the draft holds, in time n log n.
    pub fn finish(self, alloc: Global, mapping: &Mapping) -> Result<Shard, AllocError>
        requires { IsDraftFor mapping.now self }
        ensures { IfOk result (λ s. IsFinishedFrom mapping.now self s) }
    {
        let ShardDraft {
            kinds,
            ids,
            rows,
            ends,
            numbers,
            drafts,
        } = self;
        let nested = mapping.nested.as_slice();
        let homes = homes_of(alloc, nested.len() + 1, &rows)?;
        let stored = store(alloc, numbers, drafts, &homes)?;
        let numbers = numbers_by_context(alloc, nested.len() + 1, &rows)?;
        let contexts = contexts(alloc, mapping.fields.as_slice())?;
        let parents = parents(alloc, nested)?;
        let Stored {
            words,
            longest,
            most,
            columns,
            count: values,
        } = stored;
        Ok(Shard {
            kinds,
            contexts,
            parents,
            ids,
            rows,
            homes,
            ends,
            numbers,
            words,
            longest,
            most,
            columns,
            values,
        })
    }
}

impl Shard {
    ghost use Rattle.shard_columns.specs.Built.{columns_from, IsShard};

    /// The documents of a shard under their mapping, in time n log n and memory in proportion to rows and values.
    ///
    /// The mapping has up to `MAX_PATHS` fields and nested paths, each path behind the one around it. The documents are such
    /// as their reader gives them for it, with rows, values and bytes of words that are fewer than `WEIGHT_LIMIT` together.
    pub fn build(
        alloc: Global,
        documents: &List<Document>,
        mapping: &Mapping,
    ) -> Result<Shard, AllocError>
        requires few { length mapping.now.fields + length mapping.now.nested ≤ MAX_PATHS }
        requires paths { IsTrue (parents_before mapping.now) }
        requires fit { IsTrue (all_fit mapping.now documents.now) }
        requires light { rows_weight (rows_of_documents documents.now) < WEIGHT_LIMIT }
        ensures { IfOk result (λ s. s ≡ columns_from mapping.now documents.now) }
    {
        let mut draft = ShardDraft::new(alloc, mapping)?;
        for document in documents.as_slice() {
            draft.push(document)?;
        }
        draft.finish(alloc, mapping)
    }

    /// The number of rows. They are those of documents that fit the mapping that the shard was built with.
    pub fn len(&self) -> u32
        ensures rows { result ≡ length self.now.rows }
        ensures built { IsShard self.now }
    {
        self.rows.len() as u32
    }

    /// The number of documents.
    pub fn roots(&self) -> u32
        ensures { result ≡ length (roots self.now.rows) }
    {
        numbers_of(self.numbers.as_slice(), 0).len() as u32
    }

    /// The row of the document at this place.
    pub fn root(&self, place: u32) -> u32
        requires { place < length (roots self.now.rows) }
        ensures number { result < length self.now.rows }
        ensures row { slice_get (roots self.now.rows) place ≡ Some (row_of self.now.rows result) }
    {
        numbers_of(self.numbers.as_slice(), 0)[place as usize]
    }

    /// The context of a row: 0 at a root, i + 1 at the i-th nested path.
    pub fn context(&self, row: u32) -> u32
        requires { row < length self.now.rows }
        ensures { result ≡ (row_of self.now.rows row).context }
    {
        context(&self.rows.at(row)) as u32
    }

    /// The kind of a field of the mapping, which each of its values has.
    pub fn kind(&self, field: u32) -> FieldKind
        requires { field < length self.now.kinds }
        ensures kind { slice_get self.now.kinds field ≡ Some result }
        ensures values { AreOfKind result field self.now.rows }
    {
        self.kinds[field as usize]
    }

    /// The row directly around a row; none around a root.
    pub fn parent(&self, row: u32) -> Option<u32>
        requires { row < length self.now.rows }
        ensures root { IsNone result ↔ ((row_of self.now.rows row).context ≡ 0) }
        ensures before { IfSome result (λ p. p < row) }
        ensures beneath { IfSome result (λ p. IsDirectlyBeneath (row_of self.now.rows row) (row_of self.now.rows p)) }
        ensures enclosed { IsEnclosedBy self.now.rows row result }
    {
        match self.rows.at(row).origin {
            Origin::Root => None,
            Origin::Nested { parent, .. } => Some(parent),
        }
    }

    /// The rows at a nested path within a row, on all levels, ascending; a row at that path counts within itself.
    pub fn children(&self, row: u32, path: u32) -> &[u32]
        requires { row < length self.now.rows }
        ensures rows { map (row_of self.now.rows) result.now ≡ beneath self.now.rows (path + 1) (row_of self.now.rows row) }
        ensures numbers { (k : ℕ) → k < length result.now → slice_index result.now k < length self.now.rows }
        ensures few { length self.now.rows < 2 ^ 32 }
    {
        let numbers = numbers_of(self.numbers.as_slice(), path as usize + 1);
        let end = self.ends[row as usize];
        let guess = Part {
            start: self.nested_before(row),
            end: self.nested_before(end),
        };
        numbers_between(numbers, row, end, guess)
    }

    // How many rows before this one are no roots. Where the mapping has one nested path, so many of its rows are before this one.
    fn nested_before(&self, row: u32) -> usize {
        if row as usize >= self.rows.len() {
            return (row as usize).saturating_sub(numbers_of(self.numbers.as_slice(), 0).len());
        }
        let entry = self.rows.at(row);
        let before = row.saturating_sub(entry.document) as usize;
        match entry.origin {
            Origin::Root => before,
            Origin::Nested { .. } => before.saturating_sub(1),
        }
    }

    /// The number of rows at a nested path within a row, on all levels; a row at that path counts within itself.
    pub fn child_count(&self, row: u32, path: u32) -> u32
        requires { row < length self.now.rows }
        ensures { result ≡ length (beneath self.now.rows (path + 1) (row_of self.now.rows row)) }
    {
        self.children(row, path).len() as u32
    }

    /// The row at this place among those that `child_count` counts, in their order.
    pub fn child(&self, row: u32, path: u32, place: u32) -> u32
        requires in_range { row < length self.now.rows }
        requires there { place < length (beneath self.now.rows (path + 1) (row_of self.now.rows row)) }
        ensures number { result < length self.now.rows }
        ensures row { slice_get (beneath self.now.rows (path + 1) (row_of self.now.rows row)) place ≡ Some (row_of self.now.rows result) }
    {
        self.children(row, path)[place as usize]
    }

    /// The id of a row's document, in UTF-8.
    pub fn id(&self, row: u32) -> &[u8]
        requires { row < length self.now.rows }
        ensures { result.now ≡ (row_of self.now.rows row).id }
    {
        bytes_at(&self.ids, self.rows.at(row).document as usize)
    }

    /// The number of values that a row has of a field, 0 where it has none.
    pub fn value_count(&self, row: u32, field: u32) -> u32
        requires { row < length self.now.rows }
        ensures { result ≡ length (values_of field (row_of self.now.rows row)) }
    {
        match column_at(self.columns.as_slice(), field) {
            Some(column) => {
                let span = span_at(column, &self.homes, row);
                span.end - span.start
            }
            None => 0,
        }
    }

    /// The whole numbers that a row has of a field, ascending, lent; none where the field is of another kind.
    pub fn numbers(&self, row: u32, field: u32) -> &[i64]
        requires { row < length self.now.rows }
        ensures exact { result.now ≡ wholes_in (values_of field (row_of self.now.rows row)) }
        ensures values { IsTrue (holds_numbers self.now.kinds field) → map Whole result.now ≡ values_of field (row_of self.now.rows row) }
    {
        match column_at(self.columns.as_slice(), field) {
            Some(column) => wholes_at(column, &self.homes, row),
            None => &[],
        }
    }

    /// The places in the field's dictionary of the words that a row has of a field, ascending, lent; none where the field is
    /// of another kind.
    pub fn ordinals(&self, row: u32, field: u32) -> &[u32]
        requires { row < length self.now.rows }
        ensures exact { map (word_at (words_of field self.now.rows)) result.now ≡ words_in (values_of field (row_of self.now.rows row)) }
        ensures values { slice_get self.now.kinds field ≡ Some Keyword →
            map (λ o. Word (word_at (words_of field self.now.rows) o)) result.now ≡ values_of field (row_of self.now.rows row) }
        ensures known { (k : ℕ) → k < length result.now → slice_index result.now k < length (words_of field self.now.rows) }
    {
        match column_at(self.columns.as_slice(), field) {
            Some(column) => ordinals_at(column, &self.homes, row),
            None => &[],
        }
    }

    /// The flags that a row has of a field, ascending, lent; none where the field is of another kind.
    pub fn flags(&self, row: u32, field: u32) -> &[bool]
        requires { row < length self.now.rows }
        ensures exact { result.now ≡ flags_in (values_of field (row_of self.now.rows row)) }
        ensures values { slice_get self.now.kinds field ≡ Some Boolean → map Flag result.now ≡ values_of field (row_of self.now.rows row) }
    {
        match column_at(self.columns.as_slice(), field) {
            Some(column) => flags_at(column, &self.homes, row),
            None => &[],
        }
    }

    /// The value at this place among those that a row has of a field, in the order of its document.
    pub fn value(&self, row: u32, field: u32, place: u32) -> Cell<'_>
        requires in_range { row < length self.now.rows }
        requires there { place < length (values_of field (row_of self.now.rows row)) }
        ensures { slice_get (values_of field (row_of self.now.rows row)) place ≡ Some (scalar_of result) }
    {
        match column_at(self.columns.as_slice(), field) {
            Some(column) => {
                let span = span_at(column, &self.homes, row);
                let place = span.start as usize + place as usize;
                match &column.typed {
                    Typed::Wholes(numbers) => Cell::Whole(numbers[place]),
                    Typed::Words(places) => {
                        word_cell(self.words.as_slice(), field, places[place])
                    }
                    Typed::Flags(flags) => Cell::Flag(flags[place]),
                }
            }
            None => unreachable!(),
        }
    }

    /// The number of distinct words of a field, 0 for a field without words.
    pub fn words(&self, field: u32) -> u32
        ensures { result ≡ length (words_of field self.now.rows) }
    {
        count_of(self.words.as_slice(), field) as u32
    }

    /// The word at a place of a field's dictionary, which has the distinct words in ascending order of their bytes.
    pub fn word(&self, field: u32, ordinal: u32) -> &[u8]
        requires { ordinal < length (words_of field self.now.rows) }
        ensures { slice_get (words_of field self.now.rows) ordinal ≡ Some result.now }
    {
        self.text(field, ordinal).as_bytes()
    }

    /// The same word, as a text.
    pub fn text(&self, field: u32, ordinal: u32) -> &str
        requires { ordinal < length (words_of field self.now.rows) }
        ensures { slice_get (words_of field self.now.rows) ordinal ≡ Some result.now }
    {
        self.words[field as usize].get(ordinal as usize)
    }

    /// How many bytes that word has, without a look at it.
    pub fn word_len(&self, field: u32, ordinal: u32) -> u64
        requires { ordinal < length (words_of field self.now.rows) }
        ensures { option_map length (slice_get (words_of field self.now.rows) ordinal) ≡ Some result }
    {
        self.words[field as usize].size(ordinal as usize) as u64
    }

    /// The place of a word in a field's dictionary, by binary search; none where no row has the word.
    pub fn find_word(&self, field: u32, word: &[u8]) -> Option<u32>
        ensures found { IfSome result (λ o. slice_get (words_of field self.now.rows) o ≡ Some word.now) }
        ensures absent { IfNone result (NoRowHas field word.now self.now.rows) }
    {
        let ordinal = find_word(self.words.get(field as usize)?, word)?;
        Some(ordinal as u32)
    }

    /// The place in its field's dictionary of the word at this place among those that a row has of the field.
    pub fn ordinal(&self, row: u32, field: u32, place: u32) -> u32
        requires keyword { slice_get self.now.kinds field ≡ Some Keyword }
        requires in_range { row < length self.now.rows }
        requires there { place < length (values_of field (row_of self.now.rows row)) }
        ensures { slice_get (as_values (words_of field self.now.rows)) result ≡ slice_get (values_of field (row_of self.now.rows row)) place }
    {
        self.ordinals(row, field)[place as usize]
    }

    /// The length of the longest word of a field in bytes, 0 where it has none.
    pub fn longest(&self, field: u32) -> u64
        ensures { result ≡ longest_word field self.now.rows }
    {
        match self.longest.get(field as usize) {
            Some(longest) => *longest as u64,
            None => 0,
        }
    }

    /// The greatest number of values that a row has of a field, 0 where none has any.
    pub fn most_values(&self, field: u32) -> u32
        ensures greatest { result ≡ most_values field self.now.rows }
        ensures each { (n : ℕ) → length (values_of field (row_of self.now.rows n)) ≤ result }
    {
        match self.most.get(field as usize) {
            Some(most) => *most,
            None => 0,
        }
    }

    /// What the columns weigh in bytes: eight for each value, and the bytes of the distinct words of each field
    /// ('Circuit breaker settings' of Elasticsearch Reference 8, fielddata).
    pub fn column_bytes(&self) -> u64
        ensures { result ≡ shard_bytes (length self.now.kinds) self.now.rows }
    {
        8 * self.values as u64 + all_bytes(self.words.as_slice())
    }
}

/// A value, with a word lent by the shard.
#[derive(Clone, Copy)]
pub enum Cell<'a> {
    Whole(i64),
    Word(&'a str),
    Flag(bool),
}
