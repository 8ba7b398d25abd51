//! What stands at the keys of an object.
ghost use Rattle.std.specs.Prelude.{◌≡◌, ◌≤◌, ◌⊎◌, None, Some, Ok, Err, IfOk, IfErr, map, option_map};
ghost use Rattle.std.specs.List.{list_all};
ghost use Rattle.serde_json.specs.View.{view};
ghost use Rattle.cube_schema.specs.declared.fault.SchemaFault.TheVariants.{NotJson, OutOfMemory as NoMemory};
ghost use Rattle.cube_schema.specs.Readers.{IsFaultOf};
ghost use Rattle.cube_schema.specs.Fields.{bool_at, file_at, filled, is_file_byte, is_file_name, json_of, list_at, name_at, object_at, optional_file_at, optional_name_at, value_at, within};

use crate::fault::SchemaFault;
use crate::place::{SchemaKey, SchemaNode, SchemaPlace};
use olap_meaning::Text;
use serde_json::Value;
use std::alloc::Global;

/// The JSON value of a file's bytes.
pub(crate) fn read_json(alloc: Global, bytes: &[u8]) -> Result<Value, SchemaFault>
    ensures ok { IfOk result (λ value. json_of bytes.now ≡ Some (view value)) }
    ensures err { IfErr result (λ fault.
        (fault ≡ NoMemory) ⊎ ((fault ≡ NotJson) × (json_of bytes.now ≡ None))) }
{
    match Value::from_slice(alloc, bytes) {
        Ok(value) => Ok(value),
        Err(error) => {
            if error.is_memory() {
                return Err(SchemaFault::OutOfMemory);
            }
            Err(SchemaFault::NotJson)
        }
    }
}

/// Refuses what is no object.
pub(crate) fn check_object(node: SchemaNode, value: &Value) -> Result<(), SchemaFault>
    ensures ok { IfOk result (λ _. object_at node (view value.now) ≡ Ok (view value.now)) }
    ensures err { IfErr result (λ fault. object_at node (view value.now) ≡ Err fault) }
{
    if value.is_object() {
        return Ok(());
    }
    Err(SchemaFault::WrongKind {
        place: SchemaPlace::Node { node },
    })
}

/// The value at a key that must be there.
#[tactic(auto, unfolding(crate::specs::Fields::value_at))]
pub(crate) fn find(node: SchemaNode, key: SchemaKey, value: &Value) -> Result<&Value, SchemaFault>
    ensures ok { IfOk result (λ found. value_at node key (view value.now) ≡ Ok (view found.now)) }
    ensures err { IfErr result (λ fault. value_at node key (view value.now) ≡ Err fault) }
{
    match value.get(key.text()) {
        Some(found) => Ok(found),
        None => Err(SchemaFault::Missing {
            place: SchemaPlace::Key { node, key },
        }),
    }
}

/// The name at a key.
#[tactic(auto, unfolding(crate::specs::Fields::name_at))]
pub(crate) fn find_name(
    node: SchemaNode,
    key: SchemaKey,
    value: &Value,
) -> Result<&str, SchemaFault>
    ensures ok { IfOk result (λ name. name_at node key (view value.now) ≡ Ok name.now) }
    ensures err { IfErr result (λ fault. name_at node key (view value.now) ≡ Err fault) }
{
    match find(node, key, value)?.as_str() {
        Some(name) if !name.is_empty() => Ok(name),
        _ => Err(SchemaFault::WrongKind {
            place: SchemaPlace::Key { node, key },
        }),
    }
}

/// The name at a key that need not be there.
#[tactic(auto, unfolding(crate::specs::Fields::optional_name_at))]
pub(crate) fn find_optional_name(
    node: SchemaNode,
    key: SchemaKey,
    value: &Value,
) -> Result<Option<&str>, SchemaFault>
    ensures ok { IfOk result (λ name.
        optional_name_at node key (view value.now) ≡ Ok (option_map (λ s. s.now) name)) }
    ensures err { IfErr result (λ fault. optional_name_at node key (view value.now) ≡ Err fault) }
{
    let Some(found) = value.get(key.text()) else {
        return Ok(None);
    };
    match found.as_str() {
        Some(name) if !name.is_empty() => Ok(Some(name)),
        _ => Err(SchemaFault::WrongKind {
            place: SchemaPlace::Key { node, key },
        }),
    }
}

/// The name at a key, as a text of its own.
pub(crate) fn read_name(
    alloc: Global,
    node: SchemaNode,
    key: SchemaKey,
    value: &Value,
) -> Result<Text, SchemaFault>
    ensures ok { IfOk result (λ name. name_at node key (view value.now) ≡ Ok name) }
    ensures err { IfErr result (λ fault. IsFaultOf (name_at node key (view value.now)) fault) }
{
    let name = find_name(node, key, value)?;
    Ok(Text::from_str(alloc, name)?)
}

fn is_file_byte(byte: u8) -> bool
    ensures { result ≡ is_file_byte byte }
{
    byte.is_ascii_alphanumeric() || byte == b'_' || byte == b'-' || byte == b'.'
}

fn are_file_bytes(bytes: &[u8]) -> bool
    ensures { result ≡ list_all is_file_byte bytes.now }
{
    bytes.iter().all(|byte| is_file_byte(*byte))
}

#[tactic(auto, unfolding(crate::specs::Fields::is_file_name))]
fn is_file_name(name: &str) -> bool
    ensures { result ≡ is_file_name name.now }
{
    let bytes = name.as_bytes();
    !bytes.is_empty() && bytes.len() <= 64 && bytes[0] != b'.' && are_file_bytes(bytes)
}

/// The file name at a key, as a text of its own.
#[tactic(auto, unfolding(crate::specs::Fields::file_at))]
pub(crate) fn read_file_name(
    alloc: Global,
    node: SchemaNode,
    key: SchemaKey,
    value: &Value,
) -> Result<Text, SchemaFault>
    ensures ok { IfOk result (λ name. file_at node key (view value.now) ≡ Ok name) }
    ensures err { IfErr result (λ fault. IsFaultOf (file_at node key (view value.now)) fault) }
{
    match find(node, key, value)?.as_str() {
        Some(name) if is_file_name(name) => Ok(Text::from_str(alloc, name)?),
        _ => Err(SchemaFault::WrongKind {
            place: SchemaPlace::Key { node, key },
        }),
    }
}

/// The file name at a key that need not be there, as a text of its own.
#[tactic(auto, unfolding(crate::specs::Fields::optional_file_at))]
pub(crate) fn read_optional_file_name(
    alloc: Global,
    node: SchemaNode,
    key: SchemaKey,
    value: &Value,
) -> Result<Option<Text>, SchemaFault>
    ensures ok { IfOk result (λ name. optional_file_at node key (view value.now) ≡ Ok name) }
    ensures err { IfErr result (λ fault.
        IsFaultOf (optional_file_at node key (view value.now)) fault) }
{
    let Some(found) = value.get(key.text()) else {
        return Ok(None);
    };
    match found.as_str() {
        Some(name) if is_file_name(name) => Ok(Some(Text::from_str(alloc, name)?)),
        _ => Err(SchemaFault::WrongKind {
            place: SchemaPlace::Key { node, key },
        }),
    }
}

/// True or false at a key that need not be there.
#[tactic(auto, unfolding(crate::specs::Fields::bool_at))]
pub(crate) fn read_bool(
    node: SchemaNode,
    key: SchemaKey,
    default: bool,
    value: &Value,
) -> Result<bool, SchemaFault>
    ensures ok { IfOk result (λ b. bool_at node key default (view value.now) ≡ Ok b) }
    ensures err { IfErr result (λ fault. bool_at node key default (view value.now) ≡ Err fault) }
{
    let Some(found) = value.get(key.text()) else {
        return Ok(default);
    };
    found.as_bool().ok_or(SchemaFault::WrongKind {
        place: SchemaPlace::Key { node, key },
    })
}

/// The items of the list at a key.
#[tactic(auto, unfolding(crate::specs::Fields::list_at), using(crate::proofs::ListFacts::listed_view))]
pub(crate) fn find_list(
    node: SchemaNode,
    key: SchemaKey,
    value: &Value,
) -> Result<&[Value], SchemaFault>
    ensures ok { IfOk result (λ items.
        list_at node key (view value.now) ≡ Ok (map view items.now)) }
    ensures err { IfErr result (λ fault. list_at node key (view value.now) ≡ Err fault) }
{
    match find(node, key, value)?.as_array() {
        Some(items) => Ok(items.as_slice()),
        None => Err(SchemaFault::WrongKind {
            place: SchemaPlace::Key { node, key },
        }),
    }
}

/// Refuses a count above its limit.
pub(crate) fn check_count(place: SchemaPlace, count: usize, limit: u32) -> Result<(), SchemaFault>
    ensures ok { IfOk result (λ _. within place count limit ≡ Ok tt) }
    ensures room { IfOk result (λ _. count ≤ limit) }
    ensures err { IfErr result (λ fault. within place count limit ≡ Err fault) }
{
    if count > limit as usize {
        return Err(SchemaFault::TooMany {
            place,
            count,
            limit,
        });
    }
    Ok(())
}

/// Refuses a list of no items.
pub(crate) fn check_filled(first: SchemaNode, items: &[Value]) -> Result<(), SchemaFault>
    ensures ok { IfOk result (λ _. filled first (map view items.now) ≡ Ok tt) }
    ensures err { IfErr result (λ fault. filled first (map view items.now) ≡ Err fault) }
{
    if items.is_empty() {
        return Err(SchemaFault::Missing {
            place: SchemaPlace::Node { node: first },
        });
    }
    Ok(())
}
