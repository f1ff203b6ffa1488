//! Lists of numbers and of names as JSON values.

ghost use Rattle.std.specs.Prelude.{◌≡◌, true, All, IfOk};
ghost use Rattle.cpt_json_form.specs.Values.{list_value, number_value};
ghost use Rattle.cpt_line.specs.Names.{is_name};
ghost use Rattle.serde_json.specs.Data.{string};
ghost use Rattle.serde_json.specs.View.{view};

use cpt_task::Name;
use serde_json::Value;
use std::alloc::{AllocError, Global};

/// What a JSON value is made of.
pub trait ToJson {
    ghost use Rattle.serde_json.specs.Data.{Data};

    /// The value.
    ghost form: { Self → Data };

    /// It can be written.
    ghost has_form: { Self → Type 0 };

    /// Its value, where it can be written.
    fn to_json(&self, alloc: Global) -> Result<Value, AllocError>
        ensures { IfOk result (λ v. has_form self.now → view v ≡ form self.now) };
}

impl ToJson for u32 {
    ghost form = { number_value };

    ghost has_form = { λ _. Unit {0} };

    fn to_json(&self, _alloc: Global) -> Result<Value, AllocError> {
        Ok(Value::from(*self))
    }
}

/// The name as a string. What is no text is written as far as it is one.
pub fn name_value(alloc: Global, name: &[u8]) -> Result<Value, AllocError>
    ensures { IfOk result (λ v. is_name name.now ≡ true → view v ≡ string name.now) }
{
    Ok(Value::String(String::from_utf8_lossy(alloc, name)?))
}

impl ToJson for Name {
    ghost form = { string };

    ghost has_form = { λ name. is_name name ≡ true };

    fn to_json(&self, alloc: Global) -> Result<Value, AllocError> {
        name_value(alloc, self.as_slice())
    }
}

/// The items as an array.
pub fn array_of<T: ToJson>(alloc: Global, items: &[T]) -> Result<Value, AllocError>
    ensures { IfOk result (λ v. All T.has_form items.now → view v ≡ list_value T.form items.now) }
{
    let mut values = Vec::new(alloc);
    for item in items {
        values.push(item.to_json(alloc)?)?;
    }
    Ok(Value::Array(values))
}
