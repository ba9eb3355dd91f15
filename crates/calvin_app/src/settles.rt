//! Applications whose requests find their sets at one look.
ghost use Rattle.calvin_app.specs.Meaning.{SettlesAtOnce};

use crate::app::App;

/// An application whose sets depend on rows of the first reads alone, those that a request needs where no row is known.
/// Who looks for the sets of a request (Thomson et al. 2012, section 3.2.1: the reconnaissance query) has them once
/// these rows were looked at.
pub trait Settles: App {
    /// The sets that are needed of what the first reads show are those that are needed of all rows.
    ghost settles: { SettlesAtOnce Self.meaning };
}
