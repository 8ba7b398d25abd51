//! Fields of a case file.
use anyhow::{Result, bail};
use serde_json::Value;

/// The items of a list.
pub(crate) fn items(value: &Value) -> Result<&[Value]> {
    match value {
        Value::Array(items) => Ok(items.as_slice()),
        _ => bail!("a list is wanted"),
    }
}

/// A text.
pub(crate) fn text(value: &Value) -> Result<&str> {
    match value {
        Value::String(text) => Ok(text.as_str()),
        _ => bail!("a text is wanted"),
    }
}

/// A number from 0.
pub(crate) fn number(value: &Value) -> Result<u64> {
    match value.as_u64() {
        Some(number) => Ok(number),
        None => bail!("a number from 0 is wanted"),
    }
}

/// The number of a field, where there is one.
pub(crate) fn number_at(object: &Value, field: &str) -> Result<Option<u64>> {
    match object.get(field) {
        Some(value) => Ok(Some(number(value)?)),
        None => Ok(None),
    }
}

/// A field that has to be there.
pub(crate) fn field<'a>(object: &'a Value, name: &str) -> Result<&'a Value> {
    match object.get(name) {
        Some(value) => Ok(value),
        None => bail!("the field {name} is wanted"),
    }
}
