//! Scripts: every interleaving of one seat, line by line.
#![tactic(auto)]

mod ended;
mod feed;
mod finish;
mod player;
mod running;
mod script;
mod settings;
#[cfg(test)]
mod tests;
mod whole;

pub use ended::{Ended, Ends, Numbers};
pub use input_report::{Status, check_source, scan_source};
pub use running::run_steps;
pub use script::{Script, read_script};
pub use settings::Settings;
pub use whole::steps_source;
