// The public call `route`: the best chain for an ask.
ghost use Rattle.std.specs.Prelude.{◌≡◌, ◌≤◌, length};
ghost use Rattle.units.specs.Limits.{most_chain};
ghost use Rattle.plan.specs.Lent.{plan_in};
ghost use Rattle.service.specs.Held.{service_in};
ghost use Rattle.service.specs.Service.{service_of, unused};
ghost use Rattle.search.specs.Model.{route_model, route_after};
ghost use Rattle.search.specs.Route.{Routes};

use crate::answer::Best;
use crate::finding::find_chain;
use plan::PlanTables;
use plan_valid::CheckedPlan;
use service::{BLANK_LEFT, BLANK_LIGHT, ServedPlan};
use units::{Ask, CheckedAsk, MOST_CHAIN, MOST_CONTACTS, Refusal};
use walk::figures_of;

// The best chain over a plan as it serves the ask: its contact numbers in the first places of the lent
// chain, its figures and how many contacts it has, or why there is none.
pub fn route_served(
    service: &ServedPlan,
    ask: CheckedAsk,
    chain: &mut [u64],
) -> Result<Best, Refusal>
    requires { (ask.asked.source.0 ≡ ask.asked.destination.0 → ⊥) × (most_chain ≤ length chain.old) }
    ensures best { result ≡ route_model (service_in service.now) ask.asked }
    ensures chain { chain.new ≡ route_after (service_in service.now) ask.asked chain.old }
{
    let found = find_chain(service, ask, chain)?;
    let figures = figures_of(service, ask, &chain[..found.count], found.delivered);
    Ok(Best {
        figures,
        count: found.count,
    })
}

// The same over a checked plan, by way of a table of light times and one of what is left, on the stack.
fn route_plan(plan: &CheckedPlan, ask: CheckedAsk, chain: &mut [u64]) -> Result<Best, Refusal>
    requires { (ask.asked.source.0 ≡ ask.asked.destination.0 → ⊥) × (most_chain ≤ length chain.old) }
    ensures best { result ≡ route_model (service_of (plan_in plan.now.tables) unused) ask.asked }
    ensures chain { chain.new ≡ route_after (service_of (plan_in plan.now.tables) unused) ask.asked chain.old }
{
    let mut lights = [BLANK_LIGHT; MOST_CONTACTS];
    let mut lefts = [BLANK_LEFT; MOST_CONTACTS];
    let service = ServedPlan::unbooked(plan, &mut lights, &mut lefts);
    route_served(&service, ask, chain)
}

// The best chain for the ask over the plan that the tables hold: its contact numbers in the first
// places of the lent chain, its figures and how many contacts it has, or why there is none.
pub fn route(tables: PlanTables, ask: Ask, chain: &mut [u64]) -> Result<Best, Refusal>
    ensures { Routes tables.entry.contacts.now tables.entry.contact_count tables.entry.ranges.now tables.entry.range_count ask chain.old result chain.new }
{
    if chain.len() < MOST_CHAIN {
        return Err(Refusal::ShortChain);
    }
    let Some(plan) = CheckedPlan::of(tables) else {
        return Err(Refusal::NoPlan);
    };
    let Some(asked) = CheckedAsk::of(ask) else {
        return Err(Refusal::AskValue);
    };
    if ask.source == ask.destination {
        return Err(Refusal::SameNode);
    }
    route_plan(&plan, asked, chain)
}
