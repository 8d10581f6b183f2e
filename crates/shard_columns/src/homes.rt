// Where each row stands among the rows of its context.
ghost use Rattle.std.specs.Prelude.{◌≡◌, ◌<◌, ◌^◌, ◌↔◌, IfOk, length};
ghost use Rattle.shard_columns.specs.Contexts.{ContextsBelow};
ghost use Rattle.shard_columns.specs.Homes.{home_of, home_count, rank_in, AreApart, AreHomes, AreNoCounts};

use crate::contexts::context;
use crate::entries::Entries;
use std::alloc::{AllocError, Global};

/// A row's context, and how many rows of that context are before it.
#[derive(Clone, Copy)]
pub struct Home {
    pub context: u32,
    pub rank: u32,
}

/// The homes of all rows.
#[derive(Drop)]
pub enum Homes {
    /// So many rows, all of them roots.
    OfRoots(u32),
    /// A home for each row.
    OfEach(Vec<Home>),
}

fn no_counts(alloc: Global, contexts: usize) -> Result<Vec<u32>, AllocError>
    ensures { IfOk result (λ counts. AreNoCounts contexts counts.items) }
{
    let mut counts = Vec::with_capacity(alloc, contexts)?;
    for _context in 0..contexts {
        counts.push(0)?;
    }
    Ok(counts)
}

// The homes of rows of so many contexts, where the rows of each context are counted.
fn homes_of_each(alloc: Global, contexts: usize, rows: &Entries) -> Result<Vec<Home>, AllocError>
    requires contexts { ContextsBelow contexts rows.now }
    requires few_contexts { contexts < 2 ^ 32 }
    requires few_rows { length rows.now < 2 ^ 32 }
    ensures sizes { IfOk result (λ homes. length homes.items ≡ length rows.now) }
    ensures apart { IfOk result (λ homes. AreApart homes.items) }
{
    let mut counts = no_counts(alloc, contexts)?;
    let mut homes = Vec::with_capacity(alloc, rows.len())?;
    for row in 0..rows.len() {
        let context = context(&rows.at(row as u32));
        let rank = counts[context];
        homes.push(Home {
            context: context as u32,
            rank,
        })?;
        counts[context] = rank + 1;
    }
    Ok(homes)
}

/// The homes of rows of so many contexts.
pub fn homes_of(alloc: Global, contexts: usize, rows: &Entries) -> Result<Homes, AllocError>
    requires contexts { ContextsBelow contexts rows.now }
    requires few_contexts { contexts < 2 ^ 32 }
    requires few_rows { length rows.now < 2 ^ 32 }
    ensures sizes { IfOk result (λ homes. home_count homes ≡ length rows.now) }
    ensures apart { IfOk result AreHomes }
{
    if rows.are_roots() {
        return Ok(Homes::OfRoots(rows.len() as u32));
    }
    Ok(Homes::OfEach(homes_of_each(alloc, contexts, rows)?))
}

impl Homes {
    /// The home of a row.
    pub fn at(&self, row: u32) -> Home
        requires { row < home_count self.now }
        ensures { result ≡ home_of self.now row }
    {
        match self {
            Homes::OfRoots(_) => Home {
                context: 0,
                rank: row,
            },
            Homes::OfEach(homes) => homes[row as usize],
        }
    }

    /// The rank of a row, if it is of this context.
    pub fn rank(&self, context: u32, row: u32) -> Option<u32>
        requires { row < home_count self.now }
        ensures { result ≡ rank_in self.now context row }
    {
        let home = self.at(row);
        if home.context == context {
            Some(home.rank)
        } else {
            None
        }
    }
}
