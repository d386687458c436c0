// Packets sealed and opened with Lake or River. Serves the main job.
#![tactic(auto)]

mod instance;
mod sealed;

pub use instance::Instance;
pub use sealed::{Channel, Secrets};
