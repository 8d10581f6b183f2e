//! A small script whole, and the length and hash of larger ones, as another program writes them.
use agg_generate::make;
use agg_model::Generate;
use std::test::Fail;

/// FNV-1a of 64 bits.
fn hash_of(bytes: &[u8]) -> u64 {
    let mut hash: u64 = 0xcbf2_9ce4_8422_2325;
    for byte in bytes {
        hash = (hash ^ u64::from(*byte)).wrapping_mul(0x0000_0100_0000_01b3);
    }
    hash
}

#[test]
fn scripts_have_the_bytes_of_another_program(rt: HostRuntime) -> Result<(), Fail> {
    let cases = [
        (7, 20_000, 8, 1_700_384, 5_838_688_651_896_588_160),
        (u64::MAX, 5_000, 64, 423_270, 9_202_738_690_640_648_839),
    ];
    for (number, documents, shards, length, hash) in cases {
        let generate = Generate {
            number,
            documents,
            shards,
        };
        let script = make(rt.alloc(), &generate)?;
        assert_eq!(rt; script.len(), length, "from {number}");
        assert_eq!(rt; hash_of(script.as_slice()), hash, "from {number}");
    }
    Ok(())
}

#[test]
fn a_script_of_one_document(rt: HostRuntime) -> Result<(), Fail> {
    let generate = Generate {
        number: u64::MAX,
        documents: 1,
        shards: 2,
    };
    let script = make(rt.alloc(), &generate)?;
    let wanted =
        b"{\"index\":\"generated\",\"mappings\":{\"properties\":{\"items\":{\"properties\":{\"qty\":{\"type\":\"integer\"},\"sku\":{\"type\":\"keyword\"}},\"type\":\"nested\"},\"price\":{\"type\":\"long\"},\"tag\":{\"type\":\"keyword\"}}},\"settings\":{\"number_of_shards\":2}}\n\n{\"index\":{\"_id\":\"0\"}}\n{\"items\":[{\"qty\":64,\"sku\":\"s2\"}],\"price\":2343,\"tag\":\"t38\"}\n\n{}\n{\"size\":0,\"aggs\":{\"tags\":{\"terms\":{\"field\":\"tag\",\"size\":5},\"aggs\":{\"total\":{\"sum\":{\"field\":\"price\"}}}},\"items\":{\"nested\":{\"path\":\"items\"},\"aggs\":{\"skus\":{\"terms\":{\"field\":\"items.sku\",\"size\":3}}}}}}\n";
    assert_eq!(rt; script.as_slice(), wanted.as_slice());
    Ok(())
}
