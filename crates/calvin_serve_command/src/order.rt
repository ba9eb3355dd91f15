//! What a line of `serve` asks for.
use calvin_script::AppName;
use calvin_serve_desk::Setting;

/// What is done with a journal.
#[derive(Clone, Copy, Debug, PartialEq, Eq)]
pub enum Task {
    /// Requests are read, kept and answered.
    Serve,
    /// The journal is written anew, to begin with the rows in which its epochs end, and then served.
    Compact,
    /// All that its epochs were answered is printed again.
    Replay,
}

/// What a line asks for: what is done with the journal of this name, which is of this application and setting.
#[derive(Clone, Copy, Debug, PartialEq, Eq)]
pub struct Order<'a> {
    pub name: &'a str,
    pub application: AppName,
    pub setting: Setting,
    pub task: Task,
}
