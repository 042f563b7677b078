// A plan that was checked once, so that no function behind the check asks again.
ghost use Rattle.plan.specs.Lent.{HoldPlan};
ghost use Rattle.plan.specs.Props.{is_plan_prop};

use crate::valid::is_plan;
use plan::PlanTables;

// Lent tables that hold a valid plan.
#[derive(Clone, Copy)]
pub struct CheckedPlan<'a> {
    pub tables: PlanTables<'a>,
    pub ghost valid: { HoldPlan tables } by { is_plan_prop _ _ _ _ },
}

impl<'a> CheckedPlan<'a> {
    ghost use Rattle.std.specs.Prelude.{◌≡◌, MatchOption};

    // The tables as a checked plan, or nothing where they do not hold a valid one.
    pub fn of(tables: PlanTables<'a>) -> Option<CheckedPlan<'a>>
        ensures { MatchOption result (HoldPlan tables.entry → ⊥) (λ p. p.tables ≡ tables.entry) }
    {
        let is_valid = is_plan(
            tables.contacts,
            tables.contact_count,
            tables.ranges,
            tables.range_count,
        );
        if is_valid {
            Some(CheckedPlan { tables })
        } else {
            None
        }
    }
}
