// The plan as it serves an ask: beside each contact its light time, which `plan_light` finds, and the bytes
// that are left on it.

#![tactic(auto)]

mod serving;
mod tables;

pub use serving::serve;
pub use tables::{
    BLANK_LEFT, BLANK_LIGHT, Pass, ServedPlan, UNRANGED, left_numbered, light_numbered,
};
