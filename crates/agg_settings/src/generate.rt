//! The value of `--generate`.

ghost use Rattle.std.specs.Prelude.{◌≡◌};
ghost use Rattle.agg_settings.specs.Generating.{generate_of};

use crate::numbers::number_in;
use crate::values::parts;
use agg_model::Generate;
use agg_model::limits::{MAX_GENERATED_DOCUMENTS, MAX_GENERATED_SHARDS};

/// The script that `NUMBER:DOCUMENTS:SHARDS` asks for; none for any other text.
#[tactic(auto, unfolding(crate::specs::Generating::generate_of))]
pub(crate) fn generate_of(text: &str) -> Option<Generate>
    ensures { result ≡ generate_of text.now }
{
    let (number, rest) = parts(text, ':');
    let (documents, shards) = parts(rest, ':');
    let number = number_in(0, u64::MAX, number.as_bytes());
    let documents = number_in(0, MAX_GENERATED_DOCUMENTS, documents.as_bytes());
    let shards = number_in(1, MAX_GENERATED_SHARDS, shards.as_bytes());
    match (number, documents, shards) {
        (Some(number), Some(documents), Some(shards)) => Some(Generate {
            number,
            documents: documents as u32,
            shards: shards as u32,
        }),
        _ => None,
    }
}
