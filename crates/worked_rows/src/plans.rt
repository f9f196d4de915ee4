//! The plans of faults and edits of a run.

use crate::entry::{Entry, Object};
use crate::error::RowError;
use crate::rows::Ground;
use outside::{FaultPlace, FaultPlan, OutsideEdit};
use std::alloc::Global;
use values::{Bytes, Text};

/// A plan without faults and edits.
pub fn no_plan(alloc: Global) -> FaultPlan {
    FaultPlan {
        places: Vec::new(alloc),
        stop_at: None,
        edits: Vec::new(alloc),
    }
}

fn fault_of(form: Object<'_>) -> Result<FaultPlace, RowError> {
    Ok(FaultPlace {
        call: form.must("call")?.number()?,
        acted: form.must("acted")?.flag()?,
    })
}

fn edit_of(form: Object<'_>, ground: Ground<'_>) -> Result<OutsideEdit, RowError> {
    let name = form.must("name")?.text()?;
    let new = match form.get("text") {
        None => None,
        Some(text) => ground.new_text(text)?,
    };
    Ok(OutsideEdit {
        before_call: form.must("before_call")?.number()?,
        name: Text::of(String::from_str(ground.alloc, name)?),
        new: new.map(Bytes::of),
    })
}

/// The plan that a row gives for a place.
pub fn plan_of(form: Entry<'_>, ground: Ground<'_>) -> Result<FaultPlan, RowError> {
    let form = form.object(&["faults", "stop_at", "edits"])?;
    let mut plan = no_plan(ground.alloc);
    if let Some(call) = form.get("stop_at") {
        plan.stop_at = Some(call.number()?);
    }
    for value in form.list("faults")? {
        let fault = Entry::of(ground.alloc, "faults", value);
        plan.places
            .push(fault_of(fault.object(&["call", "acted"])?)?)?;
    }
    for value in form.list("edits")? {
        let edit = Entry::of(ground.alloc, "edits", value);
        let edit = edit.object(&["before_call", "name", "text"])?;
        plan.edits.push(edit_of(edit, ground)?)?;
    }
    Ok(plan)
}
