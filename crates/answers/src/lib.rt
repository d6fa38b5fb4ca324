// The answers of the planner, of the search for the best target and of the checks: their cases with named values
// (specs/Answers, specs/BestAnswers and specs/CheckAnswers have the number and the values of each).
#![tactic(auto)]

mod answer;
mod best;
mod check;

pub use answer::{Answer, Filled, LongAnswer, NoneAnswer, PlanAnswer};
pub use best::{BestAnswer, BestFilled, BestPlan};
pub use check::{ListAnswer, ListPassed, PageAnswer, SetAnswer};
