//! Calls of which a store call or an allocation is refused: what they answer, and what is left.
//!
//! | Module | Tests |
//! |-|-|
//! | `calls` | each store call of a row, refused in each way |
//! | `flushes` | each call of a flush, and the files that a refused one leaves |
//! | `allocations` | rows of which any one allocation may be refused |
//! | `rows` | holds no test: calls, what each answers, and what is shown then |
//! | `trials` | holds none: a row on a tree that meets a refusal, beside one that never makes a refused call |
//! | `pairs` | holds none: calls on these two |
//! | `steps` | holds none: the calls |
//! | `looks`, `shown` | hold none: what two trees show and count, and what one shows |
//! | `store` | holds none: a store one call of which is refused |
#![tactic(auto)]

#[cfg(test)]
mod allocations;
#[cfg(test)]
mod calls;
#[cfg(test)]
mod flushes;
#[cfg(test)]
mod looks;
#[cfg(test)]
mod pairs;
#[cfg(test)]
mod rows;
#[cfg(test)]
mod shown;
#[cfg(test)]
mod steps;
#[cfg(test)]
mod store;
#[cfg(test)]
mod trials;
