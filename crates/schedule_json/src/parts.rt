// What stands in a JSON value: numbers, and the members of objects.

ghost use Rattle.std.specs.Prelude.{◌≡◌, true, length, option_map, option_and_then};
ghost use Rattle.std.specs.{List.{list_all}, Str.{is_utf8}};
ghost use Rattle.serde_json.specs.{Find.{get}, View.{view}};
ghost use Rattle.schedule_json.specs.Parts.{whole, natural as natural_of, is_count, member_count};
ghost use Rattle.schedule_json.specs.{Parts.{has_each, has_exactly}, Worlds.{const_names}};

use serde_json::Value;
use spec_core::{Const, Name};

/// A whole number that isn't negative.
pub fn natural(value: &Value) -> Option<u64>
    ensures { result ≡ natural_of (view value.now) }
{
    match value.as_i64() {
        Some(number) => u64::try_from(number).ok(),
        None => None,
    }
}

/// What stands at a key of an object.
pub fn member<'v>(value: &'v Value, key: &[u8]) -> Option<&'v Value>
    requires { is_utf8 key.now ≡ true }
    ensures { option_map (λ v. view v.now) result ≡ get key.now (view value.now) }
{
    match std::str::from_utf8(key) {
        Ok(text) => value.get(text),
        Err(_) => None,
    }
}

/// Whether it is an object with so many members.
pub fn has_members(value: &Value, count: usize) -> bool
    ensures { result ≡ is_count count (member_count (view value.now)) }
{
    match value.as_object() {
        Some(map) => map.len() == count,
        None => false,
    }
}

fn has_names(value: &Value, names: &[Name]) -> bool
    requires { list_all is_utf8 names.now ≡ true }
    ensures { result ≡ has_each names.now (view value.now) }
{
    match names {
        [] => true,
        [name, names @ ..] => member(value, name.bytes()).is_some() && has_names(value, names),
    }
}

fn has_constants(value: &Value, consts: &[Const]) -> bool
    requires { list_all is_utf8 (const_names consts.now) ≡ true }
    ensures { result ≡ has_each (const_names consts.now) (view value.now) }
{
    match consts {
        [] => true,
        [one, consts @ ..] => member(value, one.name.bytes()).is_some()
            && has_constants(value, consts),
    }
}

/// Whether it is an object with exactly these names as keys.
pub fn is_keyed_by_names(value: &Value, names: &[Name]) -> bool
    requires { list_all is_utf8 names.now ≡ true }
    ensures { result ≡ has_exactly names.now (view value.now) }
{
    has_members(value, names.len()) && has_names(value, names)
}

/// Whether it is an object with exactly the names of these constants as keys.
pub fn is_keyed_by_constants(value: &Value, consts: &[Const]) -> bool
    requires { list_all is_utf8 (const_names consts.now) ≡ true }
    ensures { result ≡ has_exactly (const_names consts.now) (view value.now) }
{
    has_members(value, consts.len()) && has_constants(value, consts)
}
