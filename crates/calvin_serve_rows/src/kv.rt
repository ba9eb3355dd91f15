//! The rows of the application Kv.
use crate::stored::StoredRow;
use serde_json::Value;
use std::alloc::{AllocError, Global};

impl StoredRow for u64 {
    ghost use Rattle.calvin_serve_rows.specs.KvForms.{kv_row};

    ghost form = { kv_row };

    fn of_json(value: &Value) -> Option<u64> {
        value.as_u64()
    }

    fn to_json(&self, _alloc: Global) -> Result<Value, AllocError> {
        Ok(Value::from(*self))
    }
}
