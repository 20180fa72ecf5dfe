// Tests of ground problems by public calls: numbers, readings at a stage, clauses, sizes and witnesses worked by hand.
#![tactic(auto)]

#[cfg(test)]
mod agreement;
#[cfg(test)]
mod clauses;
#[cfg(test)]
mod examples;
#[cfg(test)]
mod numbering;
#[cfg(test)]
mod problems;
#[cfg(test)]
mod satisfying;
#[cfg(test)]
mod setting;
#[cfg(test)]
mod sizes;
#[cfg(test)]
mod staging;
#[cfg(test)]
mod witnesses;
