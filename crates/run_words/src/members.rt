//! The members of JSON values.

use serde_json::Value;

/// The name of a case, and what it holds; none of a case that has a name alone.
pub fn case_of(value: &Value) -> Option<(&str, &Value)> {
    let members = value.as_object()?;
    let (name, holds) = members.first_key_value()?;
    Some((name.as_str(), holds))
}

/// The name of a case.
pub fn name_of(value: &Value) -> Option<&str> {
    match value.as_str() {
        Some(name) => Some(name),
        None => {
            let (name, _) = case_of(value)?;
            Some(name)
        }
    }
}

/// A member that is a number.
pub fn number_at(value: &Value, name: &str) -> Option<u64> {
    value.get(name)?.as_u64()
}

/// A member that is a text.
pub fn text_at<'a>(value: &'a Value, name: &str) -> Option<&'a str> {
    value.get(name)?.as_str()
}

/// Whether a member is `true`.
pub fn is_true_at(value: &Value, name: &str) -> bool {
    match value.get(name) {
        Some(member) => member.as_bool() == Some(true),
        None => false,
    }
}

/// A member that is a list.
pub fn list_at<'a>(value: &'a Value, name: &str) -> Option<&'a [Value]> {
    Some(value.get(name)?.as_array()?.as_slice())
}
