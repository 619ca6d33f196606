//! The end of a run between threads: what its tasks and founders leave behind, put together and
//! compared.

pub mod agreeing;
pub mod gathering;
pub mod given_numbers;
pub mod joining;
pub mod lines;
pub mod run_end;
pub mod task_left;
