//! The line that answers a settings line.
ghost use Rattle.std.specs.Prelude.{◌≡◌, IfOk};
ghost use Rattle.std.specs.Option.{option_copied};
ghost use Rattle.agg_spec.specs.Written as definition;

use crate::errors::error_line;
use crate::values::{Object, flag_value};
use agg_model::Text;
use std::alloc::{AllocError, Global};

/// The line that answers a settings line: an acknowledgement, or the exception that tells the first name that it may
/// not set, `refused`. Where the columns are beyond a new limit, `exception` writes the line.
pub fn settings_line(alloc: Global, refused: Option<&Text>) -> Result<Text, AllocError>
    ensures { IfOk result (λ t. t ≡ definition.settings_line (option_copied refused.entry)) }
{
    match refused {
        None => Object::new(alloc)
            .with(alloc, "acknowledged", flag_value(true))?
            .into_json()
            .text(alloc),
        Some(name) => {
            let members = Object::new(alloc)
                .with_text(alloc, "key", name.as_str())?
                .with_text(alloc, "type", "settings_exception")?;
            error_line(alloc, members, 400)
        }
    }
}
