// Looking into JSON values.
ghost use Rattle.std.specs.Prelude.{◌≡◌, option_map};
ghost use Rattle.serde_json.specs.View.{view};
ghost use Rattle.wse_json.specs.Members.{optional};

use serde_json::Value;

/// The member, unless it is null.
pub fn optional<'a>(value: &'a Value, name: &str) -> Option<&'a Value>
    ensures { option_map (λ v. view v.now) result ≡ optional name.now (view value.now) }
{
    value.get(name).filter(|found| !found.is_null())
}
