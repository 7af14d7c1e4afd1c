//! Looking up keys of a TOML table.

ghost use Rattle.std.specs.Prelude.{◌≡◌, option_map};
ghost use Rattle.toml.specs.Data.{get_member};
ghost use Rattle.toml.specs.View.{view, table_view};

use toml::{Table, Value};

pub(crate) fn value_at<'t>(table: &'t Table, key: &str) -> Option<&'t Value>
    ensures is { option_map (λ value. view value.now) result
        ≡ get_member key.now (table_view table.now) }
{
    table.get(key)
}
