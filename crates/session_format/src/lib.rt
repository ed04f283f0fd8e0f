// The format of a setting-up session: its calls, its refusals, and the reader.
#![tactic(auto)]

pub mod encoding;
pub mod reader;
pub mod refusals;
pub mod view;

pub use encoding::Call;
pub use reader::read_session;
pub use refusals::FormatRefusal;
pub use view::Calls;
