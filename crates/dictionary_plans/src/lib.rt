// What calls of DS AP ES CF SS SC CR come to.

#![tactic(auto)]

mod marking;
mod planning;
mod segmenting;
mod strings;

pub use planning::plan_dictionary;
