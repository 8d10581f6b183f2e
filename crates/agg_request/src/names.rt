//! Names of aggregations.

ghost use Rattle.std.specs.Prelude.{◌≡◌, ◌==◌, ◌||◌};
ghost use Rattle.std.specs.List.{list_any};
ghost use Rattle.agg_reading.specs.Aggregations.{is_aggregation_name};

use json_walk::is_one_of;
use request_kinds::is_name;

/// Whether a name holds `[`, `]` or `>`, which paths to aggregations are written with.
fn has_path_sign(name: &[u8]) -> bool
    ensures { result ≡ list_any (λ b. b == 91 || b == 93 || b == 62) name.now }
{
    for b in name {
        if *b == b'[' || *b == b']' || *b == b'>' {
            return true;
        }
    }
    false
}

/// Whether an aggregation may have this name: 1 to `MAX_NAME` bytes without `[`, `]` and `>`, and not a word that
/// stands beside children in an answer.
#[tactic(auto, unfolding(agg_reading::specs::Aggregations::is_aggregation_name))]
pub fn is_aggregation_name(name: &str) -> bool
    ensures { result ≡ is_aggregation_name name.now }
{
    is_name(name)
        && !has_path_sign(name.as_bytes())
        && !is_one_of(
            name,
            &[
                "doc_count",
                "doc_count_error_upper_bound",
                "key",
                "key_as_string",
            ],
        )
}
