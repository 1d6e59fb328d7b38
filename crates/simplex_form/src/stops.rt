//! Reads the order to stop inside a step.
ghost use Rattle.std.specs.Prelude.{◌≡◌};
ghost use Rattle.serde_json.specs.View.{view};
ghost use Rattle.simplex_form.specs.Events.{call_at, cut_of, fail_of, order_of, stop_of, stop_at};

use crate::pieces::{has_members, number_at};
use serde_json::Value;
use simplex_messages::Stop;

fn call_at(value: &Value, name: &str) -> Option<u64>
    ensures { result ≡ call_at name.now (view value.now) }
{
    let call = number_at(value, name)?;
    if call == 0 { None } else { Some(call) }
}

fn read_cut(value: &Value) -> Option<Stop>
    ensures { result ≡ cut_of (view value.now) }
{
    let call = call_at(value, "cut")?;
    let keep = number_at(value, "keep")?;
    Some(Stop::Cut { call, keep })
}

fn read_fail(value: &Value) -> Option<Stop>
    ensures { result ≡ fail_of (view value.now) }
{
    let call = call_at(value, "fail")?;
    let keep = number_at(value, "keep")?;
    Some(Stop::Fail { call, keep })
}

fn read_order(value: &Value) -> Option<Stop>
    ensures { result ≡ order_of (view value.now) }
{
    if !has_members(value, 2) {
        return None;
    }
    if let Some(cut) = read_cut(value) {
        return Some(cut);
    }
    read_fail(value)
}

/// The order to stop inside a step, if there is one.
pub(crate) fn read_stop(value: &Value) -> Option<Stop>
    ensures { result ≡ stop_of (view value.now) }
{
    if value.is_null() {
        return Some(Stop::None);
    }
    read_order(value)
}

// The order to stop of an event.
pub fn stop_at(value: &Value) -> Option<Stop>
    ensures { result ≡ stop_at (view value.now) }
{
    read_stop(value.get("stop")?)
}
