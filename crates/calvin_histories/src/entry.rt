//! What happened at a node.
ghost use Rattle.std.specs.Prelude.{◌≡◌, length, slice_get};
ghost use Rattle.std.specs.Option.{option_copied};

use calvin_app::App;
use calvin_node::Act;
use calvin_node_packets::Packet;
use calvin_world::PacketName;
use std::marker::Model;

/// An event that took effect, as its node sees it.
#[derive(Drop)]
pub enum Entry<Args, Row, Reply> {
    /// One of the node's own events.
    Own(Act<Args>),
    /// A packet came that its sender had sent under this name.
    Came(PacketName, Packet<Args, Row, Reply>),
}

/// The entries of one node, in the order in which they happened, which contracts see as a list.
#[derive(Drop)]
pub struct History<A: App> {
    pub(crate) entries: Vec<Entry<A::Args, A::Row, A::Reply>>,
}

impl<A: App> Model for History<A> {
    ghost use Rattle.std.specs.Coded.{codes};
    ghost use Rattle.std.specs.FinMap.{code};
    ghost use Rattle.std.specs.Prelude.{List};
    ghost use Rattle.calvin_histories.specs.declared.entry.Entry.{Entry};

    ghost Value = { List (Entry A.Args A.Row A.Reply) };

    ghost coded = { Prim.hlevel (codes, code) };

    ghost view = { λ h. h.entries.items };
}

impl<A: App> History<A> {
    /// These entries.
    pub fn of(entries: Vec<Entry<A::Args, A::Row, A::Reply>>) -> History<A>
        ensures { result ≡ entries.items }
    {
        History { entries }
    }

    /// How many entries there are.
    pub fn len(&self) -> usize
        ensures { result ≡ length self.now }
    {
        self.entries.len()
    }

    /// The entry with so many before it, if there is one.
    pub fn get(&self, at: usize) -> Option<&Entry<A::Args, A::Row, A::Reply>>
        ensures { option_copied result ≡ slice_get self.now at }
    {
        if at < self.entries.len() {
            Some(&self.entries[at])
        } else {
            None
        }
    }
}
