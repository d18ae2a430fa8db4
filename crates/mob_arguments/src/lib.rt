//! Arguments of the programs: the commands that take them, the meaning of their values, and the
//! settings of mobsql.
#![tactic(auto)]

mod command;
pub mod laws;
mod options;
mod readers;
mod reading;
mod values;

pub use command::given;
pub use options::Settings;
pub use readers::{count_of, distance_in, epoch_of, flag_of, workers_of};
pub use reading::settings;
