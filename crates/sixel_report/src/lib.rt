//! What the tasks of the program are, what they say, and how they end: tasks, requests, statuses, faults, exit statuses
//! and the lines that are written.
#![tactic(auto)]

mod differences;
mod exit;
mod fault;
mod first_finding;
mod item;
mod lines;
mod put_item;
mod request;
mod rule_set;
mod string_lines;
mod survey_lines;
mod task;
mod wanted_lines;

pub use differences::{
    Group, Members, differ_items, differ_status, group_line, same_line, terminal_name,
    unmodelled_line,
};
pub use exit::{Exit, code_of, exit_of};
pub use fault::RunFault;
pub use first_finding::first_of;
pub use item::{Item, Items, item_line, item_of, survey_items};
pub use lines::{
    Line, asked_line, event_line, fault_line, finding_line, named_rule_name, outcome_line,
    ppm_reason_name, reason_name, rule_name, write_fault, write_finding,
};
pub use put_item::{Plain, PutItem};
pub use request::Request;
pub use rule_set::{RuleSet, rules_of};
pub use string_lines::{StringLine, string_line};
pub use survey_lines::{asked_entry_line, entry_line, size_line};
pub use task::{Area, MOST_SCREEN_SIDE, Note, PictureFormat, Status, Task};
pub use wanted_lines::{Lines, all_of, is_json, is_portable_item, is_quiet};
