//! An index from codes to the places at which they stand.
ghost use Rattle.std.specs.Prelude.{◌≡◌, ◌++◌, ◌∷◌, [], ◌<◌, IfOk, IfSome, IfNone, OnErr, OnOk, List, ℤ, length, pos, suc, false, replicate};
ghost use Rattle.std.specs.List.{IsDistinct, list_any};
ghost use Rattle.std.specs.Ordering.{int_eq};
ghost use Rattle.bucket_places.specs.Places.{IsAddedAt, IsPlaceOf, IsIndexed, IsOutside, Indexes};

use std::alloc::{AllocError, Global};
use std::collections::BTreeMap;
use std::marker::Model;

// A growing index makes its table once there is a code for each so many entries, of 4 bytes each.
const ENTRIES_A_CODE: usize = 32;

// Where there is no table, so many codes are looked through: they lie in two cache lines, while a map takes nodes of about 200
// bytes for them, in which it looks through codes as well.
const SCANNED_CODES: usize = 16;

/// Where a code stands.
#[derive(Clone, Copy, Debug, PartialEq, Eq)]
pub enum Place {
    /// It stood there before.
    Found(usize),
    /// It came last.
    Added(usize),
}

// The places of codes.
#[derive(Drop)]
struct Index {
    // One more than the place of the code that is this entry's number, and 0 where it has none.
    table: Vec<u32>,
    // The places of the codes that are no number of an entry.
    others: BTreeMap<i64, usize>,
}

/// Distinct codes in the order in which they came, and an index into them where they are not few. Contracts see the list of the
/// codes.
#[derive(Drop)]
pub struct Places {
    codes: Vec<i64>,
    // With none the codes are looked through.
    index: Option<Index>,
    // How many entries the table has, or is to have once there are many codes.
    width: u32,
    alloc: Global,
}

impl Model for Places {
    ghost use Rattle.std.specs.Prelude.{List, ℤ};
    ghost use Rattle.bucket_places.specs.Places.{AreKept};

    ghost Value = { List ℤ };

    ghost view = { λ p. p.codes.items };

    ghost invariant = { λ p. AreKept p.codes.items p.index };
}

// The entry of a code in a table of so many.
fn entry_of(code: i64, entries: usize) -> Option<usize>
    ensures within { IfSome result (λ n. n < entries) }
    ensures code { IfSome result (λ n. code ≡ pos n) }
    ensures outside { IfNone result (IsOutside code entries) }
{
    match usize::try_from(code) {
        Ok(entry) if entry < entries => Some(entry),
        _ => None,
    }
}

fn zeros(alloc: Global, count: usize) -> Result<Vec<u32>, AllocError>
    ensures { IfOk result (λ table. table.items ≡ replicate count 0) }
{
    let table = vec![in alloc; 0; count]?;
    Ok(table)
}

// The entry of a place, which is want of memory where it has more than 32 bits.
fn after(place: usize) -> Result<u32, AllocError>
    ensures { IfOk result (λ entry. entry ≡ suc place) }
{
    let entry = u32::try_from(place).map_err(|_| AllocError)?;
    entry.checked_add(1).ok_or(AllocError)
}

// The place of a code among these, which are looked through from the front.
fn scan(codes: &[i64], code: i64) -> Option<usize>
    ensures { Indexes codes.now code result }
{
    codes.iter().position(|known| *known == code)
}

impl Index {
    // Of no code, with a table for those from 0 to below `width`.
    fn new(alloc: Global, width: u32) -> Result<Self, AllocError>
        ensures { IfOk result (λ index. IsIndexed [] index.table.items index.others) }
    {
        Ok(Index {
            table: zeros(alloc, width as usize)?,
            others: BTreeMap::new(alloc),
        })
    }

    // Of these codes, with a table for those from 0 to below `width`.
    fn over(alloc: Global, codes: &[i64], width: u32) -> Result<Self, AllocError>
        requires distinct { IsDistinct int_eq codes.now }
        ensures { IfOk result (λ index. IsIndexed codes.now index.table.items index.others) }
    {
        let mut index = Index::new(alloc, width)?;
        for place in 0..codes.len() {
            index.insert(codes[place], place)?;
        }
        Ok(index)
    }

    fn find(&self, code: i64) -> Option<usize>
        ensures { (codes : List ℤ) → IsIndexed codes self.now.table.items self.now.others → Indexes codes code result }
    {
        match entry_of(code, self.table.len()) {
            Some(entry) => match self.table[entry] {
                0 => None,
                after => Some(after as usize - 1),
            },
            None => self.others.get(&code).copied(),
        }
    }

    // Takes a code that stands nowhere, for the place after those of the codes.
    fn insert(&mut self, code: i64, place: usize) -> Result<(), AllocError>
        ensures more { OnOk result ((codes : List ℤ) → IsIndexed codes self.old.table.items self.old.others
            → list_any (int_eq code) codes ≡ false → place ≡ length codes
            → IsIndexed (codes ++ code ∷ []) self.new.table.items self.new.others) }
        ensures memory { OnErr result ((codes : List ℤ) → IsIndexed codes self.old.table.items self.old.others
            → IsIndexed codes self.new.table.items self.new.others) }
    {
        match entry_of(code, self.table.len()) {
            Some(entry) => self.table[entry] = after(place)?,
            None => {
                self.others.insert(code, place)?;
            }
        }
        Ok(())
    }
}

impl Places {
    /// No code. At most 16 are looked through, which takes 8 bytes for each and no other memory; for more there is an ordered map,
    /// and a look-up takes time by the logarithm of the codes.
    pub fn ordered(alloc: Global) -> Self
        ensures { result ≡ [] }
    {
        Places::growing(alloc, 0)
    }

    /// No code, with a table of 4 bytes for each code from 0 to below `width`, which are looked up at once. Other codes may come
    /// too, and are looked up in an ordered map.
    pub fn dense(alloc: Global, width: u32) -> Result<Self, AllocError>
        ensures { IfOk result (λ places. places ≡ []) }
    {
        Ok(Places {
            codes: Vec::new(alloc),
            index: Some(Index::new(alloc, width)?),
            width,
            alloc,
        })
    }

    /// No code; they are looked up as in `ordered`. Once there are 16, and a code for each 32 from 0 to below `width`, the next that
    /// is added makes the table of `dense`, which so takes at most 128 bytes for each code that stands here. Making a map or a
    /// table takes the time of adding each code once more, and a table that comes after a map the memory of both until it is done.
    pub fn growing(alloc: Global, width: u32) -> Self
        ensures { result ≡ [] }
    {
        Places {
            codes: Vec::new(alloc),
            index: None,
            width,
            alloc,
        }
    }

    /// The codes, each at its place.
    pub fn codes(&self) -> &[i64]
        ensures codes { result.now ≡ self.now }
        ensures distinct { IsDistinct int_eq self.now }
    {
        let _index = &self.index;
        self.codes.as_slice()
    }

    fn find(&self, code: i64) -> Option<usize>
        ensures { Indexes self.now code result }
    {
        match &self.index {
            Some(index) => index.find(code),
            None => scan(self.codes.as_slice(), code),
        }
    }

    // Puts a code at the end that stands nowhere.
    fn add(&mut self, code: i64) -> Result<usize, AllocError>
        requires absent { list_any (int_eq code) self.old ≡ false }
        ensures place { IfOk result (IsAddedAt code self.old self.new) }
        ensures distinct { IsDistinct int_eq self.new }
        ensures memory { OnErr result (self.new ≡ self.old) }
    {
        let place = self.codes.len();
        self.codes.push(code)?;
        if let Some(index) = &mut self.index {
            if index.insert(code, place).is_err() {
                self.codes.pop();
                return Err(AllocError);
            }
        }
        Ok(place)
    }

    // Makes the index or its table where they are due. The codes stay as they are, also after want of memory.
    fn grow(&mut self) -> Result<(), AllocError>
        ensures { self.new ≡ self.old }
    {
        let count = self.codes.len();
        let width = if count.saturating_mul(ENTRIES_A_CODE) >= self.width as usize {
            self.width
        } else {
            0
        };
        let is_due = match &self.index {
            Some(index) => index.table.len() < width as usize,
            None => count >= SCANNED_CODES,
        };
        if is_due {
            let index = Index::over(self.alloc, self.codes.as_slice(), width)?;
            self.index = Some(index);
        }
        Ok(())
    }

    /// The place of the code: where it stands, or at the end, where it comes to stand if it was not there. It takes memory where
    /// the code is added, and after want of memory all is as before.
    pub fn find_or_add(&mut self, code: i64) -> Result<Place, AllocError>
        ensures place { IfOk result (IsPlaceOf code self.old self.new) }
        ensures distinct { IsDistinct int_eq self.new }
        ensures memory { OnErr result (self.new ≡ self.old) }
    {
        let _index = &self.index;
        match self.find(code) {
            Some(place) => Ok(Place::Found(place)),
            None => {
                self.grow()?;
                let place = self.add(code)?;
                Ok(Place::Added(place))
            }
        }
    }
}
