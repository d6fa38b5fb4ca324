// The C door of Yinqocha: plain numbers and byte slices. The header include/yinqocha.h is its manual.
#![tactic(auto)]

mod best;
mod check_page;
mod check_plan;
mod check_set;
mod compare;
mod plan;
mod read;
mod write;

pub use best::yinqocha_best;
pub use check_page::yinqocha_check_page;
pub use check_plan::yinqocha_check_plan;
pub use check_set::yinqocha_check_set;
pub use compare::yinqocha_compare;
pub use plan::yinqocha_plan;
pub use read::yinqocha_read;
pub use write::yinqocha_write;
