//! The shards of routings.
use agg_documents::shard_of;

/// Known values of the hash: it is its offset basis of no bytes, and 0xaf63dc4c8601ec8c of the letter a, 88_332_212 modulo 1,000,000,007.
#[test]
fn a_routing_has_the_shard_of_its_hash(rt: HostRuntime) {
    assert_eq!(rt; shard_of(b"", 1_000), 37);
    assert_eq!(rt; shard_of(b"a", 1_000_000_007), 88_332_212);
}
