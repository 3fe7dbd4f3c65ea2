//! Scripts: what their lines say, which line decides, and the header of a script, line by line.
#![tactic(auto)]

mod decisions;
mod headers;
pub mod laws;
mod names;
mod settings;
mod told;
mod versions;

pub use decisions::{Decision, Kind, Limit, last_line, put_refused};
pub use headers::{Headed, Header, HeaderRefusal};
pub use names::Names;
pub use settings::Setting;
pub use told::{kind_told, limit_told};
pub use versions::ScriptVersion;
