//! The shard of a document, by the hash FNV-1a of 64 bits.

ghost use Rattle.std.specs.Prelude.{◌≡◌, ◌≤◌};
ghost use Rattle.agg_reading.specs.Routing.{hash_of, shard_of};

const OFFSET_BASIS: u64 = 14_695_981_039_346_656_037;

const PRIME: u64 = 1_099_511_628_211;

/// The hash of the bytes.
#[tactic(auto, unfolding(agg_reading::specs::Routing::hash_of))]
fn hash_of(bytes: &[u8]) -> u64
    ensures { result ≡ hash_of bytes.now }
{
    let mut word = OFFSET_BASIS;
    for byte in bytes {
        word = (word ^ u64::from(*byte)).wrapping_mul(PRIME);
    }
    word
}

/// The shard of the documents with this routing, from 0 to below the number of shards.
#[tactic(auto, unfolding(agg_reading::specs::Routing::shard_of))]
pub fn shard_of(routing: &[u8], shards: u32) -> u32
    requires { 1 ≤ shards }
    ensures { result ≡ shard_of routing.now shards }
{
    (hash_of(routing) % u64::from(shards)) as u32
}
