//! The world in code.
ghost use Rattle.std.specs.Prelude.{◌≡◌, ℕ, ◌<◌, ◌*◌, ◌/◌, ◌%◌, length, map, IfOk, OnErr, IsOkUnless, MatchOption, None, Some, slice_get};
ghost use Rattle.calvin_order.specs.Configs.{config_of};
ghost use Rattle.calvin_node_acts.specs.Running.{Running};
ghost use Rattle.calvin_node_acts.specs.declared.act.Act.TheVariants.{Lock, Begin, Finish};
ghost use Rattle.calvin_world.specs.declared.event.Event.TheVariants.{At, Deliver};
ghost use Rattle.calvin_world.specs.Histories.{LeadsOn, StaysChosen, EverStays, WasSubmitted, SubmittedBefore, StandsInTime, StandsLater};
ghost use Rattle.calvin_world.specs.Jobs.{job_of, FinishedWith};
ghost use Rattle.calvin_world.specs.Promises.{Agrees, IsSerial, PointsAreSerial, StandAlike};
ghost use Rattle.calvin_world.specs.RunningWorlds.{IsReached};
ghost use Rattle.calvin_world.specs.SettledWorlds.{settled_world, outcome_of, SettledStep, SettledLeads};
ghost use Rattle.calvin_world.specs.Worlds.{WorldState, index_of, node_at, peek, opening};

use crate::event::{Event, Outcome};
use calvin_app::{App, Computed, Job};
use calvin_lock::{Locks, QueueLocks};
use calvin_node::{Act, Node};
use calvin_node_packets::{Address, Outbox};
use calvin_store::{ColdRows, Rows};
use calvin_types::{Config, Fault, Key, NodeId, Place};
use std::alloc::Global;
use std::marker::Model;

/// All nodes of a store, replica by replica, and every packet that was ever sent, numbered from 0. Its events happen one after
/// another. Whatever they are, the nodes agree on each batch, and every replica is the serial run of what is chosen (Thomson
/// et al. 2012, section 3; "Paxos Made Simple", section 2).
#[derive(Drop)]
pub struct World<A: App + Drop, L: Locks + Drop, S: Rows<A::Row> + Drop> {
    alloc: Global,
    app: A,
    config: Config,
    nodes: Vec<Node<A, L, S>>,
    packets: Outbox<A>,
}

/// A world as the commands run it: with a queue of locks for each key, and rows that have points of consistency and a cold
/// table.
pub type StoreWorld<A> = World<A, QueueLocks, ColdRows<<A as App>::Row>>;

impl<A: App + Drop, L: Locks + Drop, S: Rows<A::Row> + Drop> Model for World<A, L, S> {
    ghost use Rattle.std.specs.Coded.{codes};
    ghost use Rattle.std.specs.FinMap.{code};
    ghost use Rattle.calvin_order.specs.Configs.{config_of};
    ghost use Rattle.calvin_world.specs.Worlds.{WorldState};
    ghost use Rattle.calvin_world.specs.RunningWorlds.{world_of, IsOpened, IsReached};

    ghost Value = { WorldState A.Args A.Row A.Reply };

    ghost coded = { Prim.hlevel (codes, code) };

    ghost view = { λ w. world_of (config_of w.config S.points S.cold) w.nodes.items w.packets.packets };

    ghost invariant = { λ w. IsOpened (config_of w.config S.points S.cold) w.nodes.items
        × IsReached A.meaning (world_of (config_of w.config S.points S.cold) w.nodes.items w.packets.packets) };
}

impl<A: App + Drop, L: Locks + Drop, S: Rows<A::Row> + Drop> World<A, L, S> {
    /// A store of new nodes, which have sent nothing. Refused with `OutOfMemory` where there was no room for the nodes.
    pub fn new(alloc: Global, config: &Config, app: A) -> Result<World<A, L, S>, Fault>
        ensures ok { IfOk result (λ w. w ≡ opening (config_of config.now S.points S.cold)) }
        ensures only { IsOkUnless result Fault.OutOfMemory }
    {
        let mut nodes = Vec::new(alloc);
        let number = config.replicas as usize * config.partitions as usize;
        for i in 0..number {
            nodes.push(Node::new(alloc, config, id_at(config, i)))?;
        }
        Ok(World {
            alloc,
            app,
            config: *config,
            nodes,
            packets: Outbox::new(alloc),
        })
    }

    /// Every packet that was ever sent, in the order in which they were sent.
    pub fn packets(&self) -> &Outbox<A>
        ensures { result.now.packets ≡ self.now.packets }
    {
        &self.packets
    }

    /// All nodes, replica by replica.
    pub fn nodes(&self) -> &[Node<A, L, S>]
        ensures nodes { map (λ n. n.state) result.now ≡ self.now.nodes }
        ensures config { (i : ℕ) (n : Running A.Args A.Row) → slice_get result.now i ≡ Some n → n.config ≡ self.now.config }
    {
        self.nodes.as_slice()
    }

    /// Where a node stands among all, if it is there.
    fn index(&self, id: NodeId) -> Option<usize>
        ensures { MatchOption result (node_at self.now id ≡ None) (λ at. (at ≡ index_of self.now.config.partitions id) × (at < length self.now.nodes)
            × (node_at self.now id ≡ slice_get self.now.nodes at)) }
    {
        if id.replica < self.config.replicas && id.partition < self.config.partitions {
            let before = id.replica as usize * self.config.partitions as usize;
            return Some(before + id.partition as usize);
        }
        None
    }

    /// What it was opened with: how many partitions and replicas, which delay and which weave. Whether there are points and cold
    /// rows is said by its keeper of rows.
    pub fn config(&self) -> &Config
        ensures partitions { result.now.partitions ≡ self.now.config.partitions }
        ensures replicas { result.now.replicas ≡ self.now.config.replicas }
        ensures whole { self.now.config ≡ config_of result.now S.points S.cold }
    {
        &self.config
    }

    /// A node, if it is there.
    pub fn node(&self, id: NodeId) -> Option<&Node<A, L, S>>
        ensures { MatchOption result (node_at self.now id ≡ None) (λ node. node_at self.now id ≡ Some node.now.state) }
    {
        let at = self.index(id)?;
        self.nodes.get(at)
    }

    /// The row of a key as it stands at a replica now, at the node of the key's partition. There is none where the replica isn't
    /// there.
    pub fn peek(&self, replica: u8, key: &Key) -> Option<A::Row>
        ensures { result ≡ peek self.now replica key.now }
    {
        let partition = self.config.partition_of(key);
        let node = self.node(NodeId { replica, partition })?;
        node.rows().get(key)
    }

    /// One event happens. Refused with `NoNode` where it is of a node that isn't there, with `NoPacket` where no packet has its
    /// number, with `NotMine` where the packet is for a client, with what the node refuses; else with `OutOfMemory` where a
    /// growth was refused or a batch can have no more owners. Where it is refused nothing changed.
    pub fn step(&mut self, event: &Event<A::Args>) -> Result<(), Fault>
        ensures step { SettledStep A.meaning self.old event.now (outcome_of result) self.new }
        ensures err { OnErr result (self.new ≡ self.old) }
    {
        // The prover has the world's invariant where a field of it is named.
        let _ = &self.nodes;
        match event {
            Event::At(id, act) => self.act(*id, act),
            Event::Deliver(number) => self.deliver(*number),
        }
    }

    /// Lets events happen one after another, and says how each ended: they go on after one that is refused. Refused with
    /// `OutOfMemory` where there was no room for that: then none happened. Whatever ran before, what is promised holds.
    pub fn run(&mut self, events: &[Event<A::Args>]) -> Result<Vec<Outcome>, Fault>
        ensures ran { IfOk result (λ outcomes. SettledLeads A.meaning self.old events.now outcomes.items self.new) }
        ensures err { OnErr result (self.new ≡ self.old) }
        ensures only { IsOkUnless result Fault.OutOfMemory }
        // No two nodes hold different batches for one slot, and what a node holds is chosen.
        ensures agrees { (w : WorldState A.Args A.Row A.Reply) × Agrees w × (self.new ≡ settled_world w) }
        // Every replica is the serial run of what is chosen.
        ensures serial { IsSerial A.meaning self.new }
        ensures points { PointsAreSerial A.meaning self.new }
        ensures alike { StandAlike self.new }
        // What was chosen before, or held, is chosen; so is what was after a beginning of these events.
        ensures stays { StaysChosen self.old self.new }
        ensures beginnings { (v : WorldState A.Args A.Row A.Reply) → LeadsOn A.meaning self.old v → LeadsOn A.meaning v self.new → StaysChosen v self.new }
        // A list of events led here from the opening, and the same was so after each beginning of it.
        ensures reached { IsReached A.meaning self.new }
        ensures ever { EverStays A.meaning self.new }
        // Each request of what is chosen was submitted at its group by one of those events, in all its parts, and before it
        // was chosen; where it stands in the order the next epoch of that node wasn't later.
        ensures submitted { WasSubmitted A.meaning self.new }
        ensures before { SubmittedBefore A.meaning self.new }
        ensures in_time { StandsInTime A.meaning self.new }
        // A request that nobody had submitted before a reply was sent stands in later epochs alone.
        ensures later { StandsLater A.meaning self.new }
    {
        let mut outcomes = Vec::with_capacity(self.alloc, events.len())?;
        for event in events {
            outcomes.push_reserved(outcome_of(self.step(event)));
        }
        Ok(outcomes)
    }

    /// What is promised of this world, whatever happened in it: what `run` promises at its end, after `new` and after `step` too.
    pub fn promised(&self)
        ensures settled { settled_world self.now ≡ self.now }
        ensures agrees { (w : WorldState A.Args A.Row A.Reply) × Agrees w × (self.now ≡ settled_world w) }
        ensures serial { IsSerial A.meaning self.now }
        ensures points { PointsAreSerial A.meaning self.now }
        ensures alike { StandAlike self.now }
        ensures reached { IsReached A.meaning self.now }
        ensures ever { EverStays A.meaning self.now }
        ensures submitted { WasSubmitted A.meaning self.now }
        ensures before { SubmittedBefore A.meaning self.now }
        ensures in_time { StandsInTime A.meaning self.now }
        ensures later { StandsLater A.meaning self.now }
    {
        let _ = &self.nodes;
    }

    /// What is to be run at a place of a node, by whoever. Refused with `NoNode` where the node isn't there, else as
    /// `Node::job` is.
    pub fn job(&self, id: NodeId, place: Place) -> Result<Job<A::Args, A::Row>, Fault>
        ensures { result ≡ job_of self.now id place }
    {
        let Some(at) = self.index(id) else {
            return Err(Fault::NoNode);
        };
        self.nodes[at].job(place)
    }

    /// Takes what came of a node's job: the event `Finish` of its place. Refused with `NoNode` where the node isn't there, with
    /// `NotCollected` where no job is due at the place, with `StaleJob` where another one is, else with `OutOfMemory` where a
    /// growth was refused. Where it is refused nothing changed.
    pub fn finish_with(&mut self, id: NodeId, computed: &Computed<A>) -> Result<(), Fault>
        ensures { FinishedWith A.meaning self.old id computed.now.job result self.new }
    {
        let Some(at) = self.index(id) else {
            return Err(Fault::NoNode);
        };
        self.nodes[at].take_computed(computed, &mut self.packets)
    }

    /// One of a node's own events.
    fn act(&mut self, id: NodeId, act: &Act<A::Args>) -> Result<(), Fault>
        ensures { SettledStep A.meaning self.old (At id act.now) (outcome_of result) self.new }
    {
        let Some(at) = self.index(id) else {
            return Err(Fault::NoNode);
        };
        self.nodes[at].act(act, &self.app, &mut self.packets)
    }

    /// The next merged request of a node asks for its locks: the event `Lock`. Refused with `NoNode` where the node isn't there,
    /// else as `Node::lock_next` is. Where it is refused nothing changed.
    pub fn lock(&mut self, id: NodeId) -> Result<(), Fault>
        ensures { SettledStep A.meaning self.old (At id Lock) (outcome_of result) self.new }
    {
        let Some(at) = self.index(id) else {
            return Err(Fault::NoNode);
        };
        self.nodes[at].lock_next()
    }

    /// The request at a place of a node begins: the event `Begin`. Refused with `NoNode` where the node isn't there, else as
    /// `Node::begin` is. Where it is refused nothing changed.
    pub fn begin(&mut self, id: NodeId, place: Place) -> Result<(), Fault>
        ensures { SettledStep A.meaning self.old (At id (Begin place)) (outcome_of result) self.new }
    {
        let Some(at) = self.index(id) else {
            return Err(Fault::NoNode);
        };
        self.nodes[at].begin(place, &mut self.packets)
    }

    /// The request at a place of a node is run and finished: the event `Finish`. Refused with `NoNode` where the node isn't
    /// there, else as `Node::finish` is. Where it is refused nothing changed.
    pub fn finish(&mut self, id: NodeId, place: Place) -> Result<(), Fault>
        ensures { SettledStep A.meaning self.old (At id (Finish place)) (outcome_of result) self.new }
    {
        let Some(at) = self.index(id) else {
            return Err(Fault::NoNode);
        };
        self.nodes[at].finish(place, &self.app, &mut self.packets)
    }

    /// A packet comes to the node that it is for, and stays.
    fn deliver(&mut self, number: usize) -> Result<(), Fault>
        ensures { SettledStep A.meaning self.old (Deliver number) (outcome_of result) self.new }
    {
        let Some(to) = self.packets.address(number) else {
            return Err(Fault::NoPacket);
        };
        let Address::AtNode(id) = to else {
            return Err(Fault::NotMine);
        };
        let Some(at) = self.index(id) else {
            return Err(Fault::NoNode);
        };
        let Some(packet) = self.packets.lend(number) else {
            return Err(Fault::NoPacket);
        };
        let result = self.nodes[at].handle(&packet, &mut self.packets);
        self.packets.put_back(number, packet);
        result
    }
}

/// How an event ended, by what its call answered.
pub fn outcome_of(answer: Result<(), Fault>) -> Outcome
    ensures { result ≡ outcome_of answer }
{
    match answer {
        Ok(()) => Outcome::Done,
        Err(fault) => Outcome::Refused(fault),
    }
}

/// The name of the node that stands at a place among all.
pub fn id_at(config: &Config, at: usize) -> NodeId
    requires { at < config.now.replicas * config.now.partitions }
    ensures { result ≡ record { replica = at / config.now.partitions; partition = at % config.now.partitions } }
{
    let partitions = config.partitions as usize;
    NodeId {
        replica: (at / partitions) as u8,
        partition: (at % partitions) as u8,
    }
}
