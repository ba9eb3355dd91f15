//! Lives of nodes in which what is refused for want of memory is tried again.
use crate::nodes::Nodes;
use crate::step::{Step, number_of};
use calvin_app::KvRequest;
use calvin_node::Act;
use calvin_types::{Config, Fault};
use std::alloc::Global;

/// What goes wrong in a life.
#[derive(Clone, Copy, PartialEq, Eq, Debug)]
pub enum Wrong {
    /// An event, or making room for what it sends, ends otherwise than it should: with this number of a refusal, or with 0
    /// where it takes effect.
    Ends(u8),
    /// The nodes tell something else than the others, or have sent something else.
    Differ,
}

/// Nodes to which events happen; others, to which those with effect happen afterwards, so that until then they are what the
/// first ones were before; for how many more packets there is memory at each event; and how often memory was refused.
///
/// What a call says to be wrong stands beside the number of the event among those that it was given, or of the packet.
#[derive(Drop)]
pub struct Life {
    nodes: Nodes,
    others: Nodes,
    room: usize,
    refused: usize,
}

/// An event ends with the number that it should end with.
fn ends(found: u8, wanted: u8) -> Result<(), Wrong> {
    if found == wanted {
        Ok(())
    } else {
        Err(Wrong::Ends(found))
    }
}

impl Life {
    /// No event has happened yet.
    fn new(alloc: Global, config: Config, room: usize) -> Result<Life, Fault> {
        let nodes = Nodes::new(alloc, config)?;
        match Nodes::new(alloc, config) {
            Ok(others) => Ok(Life {
                nodes,
                others,
                room,
                refused: 0,
            }),
            Err(fault) => {
                nodes.end();
                Err(fault)
            }
        }
    }

    /// The nodes are opened, if not at once then with memory.
    pub fn open(alloc: Global, config: Config, room: usize) -> Result<Life, Fault> {
        match Life::new(alloc, config, room) {
            Ok(life) => Ok(life),
            Err(_refused) => {
                let mut life = Life::new(alloc, config, room)?;
                life.refused = 1;
                Ok(life)
            }
        }
    }

    /// The nodes, to be asked.
    pub fn nodes(&self) -> &Nodes {
        &self.nodes
    }

    /// The life ends. Says how often memory was refused.
    pub fn end(self) -> usize {
        self.refused
    }

    /// Memory was refused once more.
    fn count_refusal(&mut self) {
        self.refused = self.refused.saturating_add(1);
    }

    /// The nodes tell the same as the others, and have sent the same packets.
    fn check_alike(&self) -> Result<(), Wrong> {
        if self.nodes.is_alike(&self.others) {
            Ok(())
        } else {
            Err(Wrong::Differ)
        }
    }

    /// The outbox has memory for no more packets than is said, if not at once then with memory.
    fn leave_room(&mut self) -> Result<(), Wrong> {
        let mut refusal = number_of(self.nodes.leave_room(self.room));
        if refusal == 1 {
            self.count_refusal();
            refusal = number_of(self.nodes.leave_room(self.room));
        }
        ends(refusal, 0)
    }

    /// What takes effect at the nodes does so at the others too, if not at once then with memory.
    fn follow(&mut self, step: &Step) -> Result<(), Wrong> {
        let mut refusal = number_of(self.others.step(step));
        if refusal == 1 {
            self.count_refusal();
            refusal = number_of(self.others.step(step));
        }
        ends(refusal, 0)
    }

    /// An event takes effect, if not at once then with memory: a refusal for want of it changes nothing.
    fn endure(&mut self, step: &Step) -> Result<(), Wrong> {
        self.leave_room()?;
        let mut refusal = number_of(self.nodes.step(step));
        if refusal == 1 {
            self.count_refusal();
            self.check_alike()?;
            refusal = number_of(self.nodes.step(step));
        }
        ends(refusal, 0)?;
        self.follow(step)?;
        self.check_alike()
    }

    /// An event is refused with a number, for no want of memory, and changes nothing.
    fn refuse(&mut self, step: &Step, number: u8) -> Result<(), Wrong> {
        self.leave_room()?;
        ends(number_of(self.nodes.step(step)), number)?;
        self.check_alike()
    }

    /// Events take effect one after another.
    pub fn endure_all(&mut self, steps: &[Step]) -> Result<(), (usize, Wrong)> {
        for (i, step) in steps.iter().enumerate() {
            if let Err(wrong) = self.endure(step) {
                return Err((i, wrong));
            }
        }
        Ok(())
    }

    /// Own events of a node take effect one after another.
    pub fn act_all(&mut self, node: usize, acts: &[Act<KvRequest>]) -> Result<(), (usize, Wrong)> {
        for (i, act) in acts.iter().enumerate() {
            if let Err(wrong) = self.endure(&Step::Own(node, *act)) {
                return Err((i, wrong));
            }
        }
        Ok(())
    }

    /// The packets from one number on and before another are delivered, and each takes effect.
    pub fn deliver(&mut self, first: usize, last: usize) -> Result<(), (usize, Wrong)> {
        for number in first..last {
            if let Err(wrong) = self.endure(&Step::Deliver(number)) {
                return Err((number, wrong));
            }
        }
        Ok(())
    }

    /// Events are refused, each with its number and for no want of memory, and change nothing.
    pub fn refuse_all(&mut self, steps: &[(Step, u8)]) -> Result<(), (usize, Wrong)> {
        for (i, (step, number)) in steps.iter().enumerate() {
            if let Err(wrong) = self.refuse(step, *number) {
                return Err((i, wrong));
            }
        }
        Ok(())
    }
}
