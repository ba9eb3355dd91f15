//! The nodes as those see them who let their events happen.
ghost use Rattle.std.specs.Prelude.{IsOkUnless};

use calvin_types::{Config, Fault, NodeId, Place};
use std::alloc::Global;

/// One node.
#[derive(Drop)]
pub(crate) struct Seat {
    pub id: NodeId,
    /// How many epochs it merged here at least.
    pub merged: u64,
    /// The greatest place at which a request was looked at as its epoch was merged.
    pub last: Option<Place>,
    /// How many requests have begun and aren't done.
    pub running: usize,
    /// Packets with rows for requests of epochs that aren't merged yet: the epoch, and the packet's number.
    pub early: Vec<(u64, usize)>,
    /// The epoch at whose end it stood last.
    pub stands: Option<u64>,
}

/// All nodes of a store, replica by replica.
#[derive(Drop)]
pub struct Seats {
    pub(crate) partitions: u8,
    pub(crate) replicas: u8,
    pub(crate) seats: Vec<Seat>,
}

impl Seats {
    /// A seat for each node of a store. Refused with `OutOfMemory` alone.
    pub fn new(alloc: Global, config: &Config) -> Result<Seats, Fault>
        ensures only { IsOkUnless result Fault.OutOfMemory }
    {
        let mut seats = Vec::new(alloc);
        for replica in 0..config.replicas {
            for partition in 0..config.partitions {
                seats.push(Seat {
                    id: NodeId { replica, partition },
                    merged: 0,
                    last: None,
                    running: 0,
                    early: Vec::new(alloc),
                    stands: None,
                })?;
            }
        }
        Ok(Seats {
            partitions: config.partitions,
            replicas: config.replicas,
            seats,
        })
    }

    /// Where a node's seat is among all.
    pub(crate) fn index(&self, id: NodeId) -> usize {
        id.replica as usize * self.partitions as usize + id.partition as usize
    }
}
