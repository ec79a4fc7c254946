// Tests of sort, of the closings and of plan beside slow references.
#![tactic(auto)]

#[cfg(test)]
mod chains;
#[cfg(test)]
mod closed;
#[cfg(test)]
mod five_planned;
#[cfg(test)]
mod five_sorted;
#[cfg(test)]
mod groups;
#[cfg(test)]
mod kinds;
#[cfg(test)]
mod long;
#[cfg(test)]
mod long_plans;
#[cfg(test)]
mod loops;
#[cfg(test)]
mod makes;
#[cfg(test)]
mod ordered;
#[cfg(test)]
mod plan_any_order;
#[cfg(test)]
mod plan_order;
#[cfg(test)]
mod plan_refusals;
#[cfg(test)]
mod plan_shapes;
#[cfg(test)]
mod plan_steps;
#[cfg(test)]
mod planned;
#[cfg(test)]
mod reference_plan;
#[cfg(test)]
mod scenes;
#[cfg(test)]
mod shapes;
#[cfg(test)]
mod short;
#[cfg(test)]
mod short_work;
#[cfg(test)]
mod sorted;
#[cfg(test)]
mod steps;
#[cfg(test)]
mod wide;
#[cfg(test)]
mod worked;
