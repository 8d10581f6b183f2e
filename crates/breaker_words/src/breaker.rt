// The breakers by name: a child as one of the four, where each has its word, and its limit.
ghost use Rattle.std.specs.Prelude.{◌≡◌, ◌<◌};
ghost use Rattle.breaker_words.specs.Breakers.{place};
ghost use Rattle.agg_model.specs.Breakers.{which_of, limit_of};

use agg_model::{Child, Limits, Which};

/// The child as one of the four breakers.
pub fn which_of(child: Child) -> Which
    ensures { result ≡ which_of child }
{
    match child {
        Child::Request => Which::Request,
        Child::Fielddata => Which::Fielddata,
        Child::Inflight => Which::Inflight,
    }
}

pub(crate) const PARENT: usize = 3;

pub(crate) const CEILING: usize = 4;

pub(crate) fn place_of(which: Which) -> usize
    ensures place { result ≡ place which }
    ensures low { result < 4 }
{
    match which {
        Which::Request => 0,
        Which::Fielddata => 1,
        Which::Inflight => 2,
        Which::Parent => PARENT,
    }
}

pub(crate) fn limit_of(limits: &Limits, which: Which) -> u64
    ensures { result ≡ limit_of limits.now which }
{
    match which {
        Which::Request => limits.request,
        Which::Fielddata => limits.fielddata,
        Which::Inflight => limits.inflight,
        Which::Parent => limits.parent,
    }
}
