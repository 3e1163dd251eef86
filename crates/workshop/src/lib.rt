// The billing rules of a shared workshop: what a use of a machine costs, what many uses cost
// together, and how a member's credit stands after them. Amounts are whole cents.
#![tactic(auto)]

pub mod cents;
pub mod credit;
#[cfg(test)]
mod tests;
pub mod usage;
