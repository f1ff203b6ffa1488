//! JSON values read in forms.

ghost use Rattle.std.specs.Prelude.{◌≡◌, IfOk, MatchOption};
ghost use Rattle.cpt_json_form.specs.Reading.{IsValueOf, ReadsForm};
ghost use Rattle.cpt_json_form.specs.Values.{list_value, number_value};
ghost use Rattle.serde_json.specs.Data.{Data, string};
ghost use Rattle.serde_json.specs.View.{view};

use cpt_json_form::Misread;
use cpt_task::{List, Memory, Name};
use serde_json::Value;
use std::alloc::Global;

/// What is read from a JSON value of one form.
pub trait FromValue: Drop {
    ghost use Rattle.serde_json.specs.Data.{Data};

    /// The value that it is read from.
    ghost form: { Self → Data };

    /// What the value is, where it has the form.
    fn from_value(alloc: Global, value: &Value) -> Result<Self, Misread>
        ensures { ReadsForm form (view value.now) result };
}

impl FromValue for u64 {
    ghost form = { number_value };

    fn from_value(_alloc: Global, value: &Value) -> Result<u64, Misread> {
        match value.as_u64() {
            Some(number) => Ok(number),
            None => Err(Misread::Shape),
        }
    }
}

impl FromValue for Name {
    ghost form = { string };

    fn from_value(alloc: Global, value: &Value) -> Result<Name, Misread> {
        match value.as_str() {
            Some(text) => Ok(List::from_vec(Vec::from_slice(alloc, text.as_bytes())?)),
            None => Err(Misread::Shape),
        }
    }
}

/// The items of an array, where each has the form.
pub fn list_of<T: FromValue>(alloc: Global, value: &Value) -> Result<List<T>, Misread>
    ensures { ReadsForm (list_value T.form) (view value.now) result }
{
    let Some(values) = value.as_array() else {
        return Err(Misread::Shape);
    };
    let mut items = Vec::new(alloc);
    for item in values {
        items.push(T::from_value(alloc, item)?)?;
    }
    Ok(List::from_vec(items))
}

/// The value that the text is, where it is JSON.
pub fn value_in(alloc: Global, text: &[u8]) -> Result<Option<Value>, Memory>
    ensures { IfOk result (λ found. MatchOption found ((d : Data) → IsValueOf text.now d → ⊥) (λ value. IsValueOf text.now (view value))) }
{
    match Value::from_slice(alloc, text) {
        Ok(value) => Ok(Some(value)),
        Err(e) if e.is_memory() => Err(Memory),
        Err(_) => Ok(None),
    }
}
