//! What help says.

/// What help says of scripts.
pub(crate) const SCRIPT_HELP: &str = "\
The script comes on standard input, as JSON of at most 1,048,576 bytes:

  {\"partitions\":2,\"app\":\"kv\",
   \"epochs\":[ [ {\"group\":0,\"txns\":[TXN, ..]}, .. ], .. ]}

and where wanted \"woven_from\":e: from epoch e on the first requests of all groups
come first, then the second ones, and so on, in place of whole batches.

  TXN  {\"client\":7,\"number\":1,\"op\":OP}, and where wanted \"attempt\":1,
       and \"reads\":[KEY, ..],\"writes\":[KEY, ..], both or neither
  KEY  [table,id]
  OP   of kv: [\"put\",k,v], [\"get\",[k, ..]], [\"add\",k,d], [\"move\",a,b,n],
       [\"follow\",k]; of stock, and of once, which is stock with each
       request's client and number answered once: [\"additem\",i,s,c],
       [\"restock\",i,s], [\"open\",u], [\"payin\",u,c],
       [\"order\",u,o,[[i,q], ..]], [\"settle\",u], [\"balance\",u]

Each request is answered by a line `epoch.n client:number answer`, in the merged
order of all groups; the last line is `finished` and the last epoch, or none.

`calvin --help` lists the exit statuses.";

/// What help says of scripts of events.
pub(crate) const EVENTS_HELP: &str = "\
The script comes on standard input, as JSON of at most 1,048,576 bytes:

  {\"partitions\":2,\"replicas\":3,\"app\":\"kv\",\"events\":[EVENT, ..]}

and where wanted \"expect\":[text, ..], the lines of answers and the last one,
\"woven_from\":e as `calvin serial --help` says, and \"delay\":d, for how many
closings, 0 to 16, a request is held back that may touch cold rows.

  EVENT  [\"submit\",r,p,TXN], [\"close\",r,p], [\"propose\",r,p,e],
         [\"deliver\",k], [\"merge\",r,p], [\"lock\",r,p], [\"begin\",r,p,e,n],
         [\"finish\",r,p,e,n], [\"snapshot\",r,p,e], [\"askreads\",r,p,e,n,r2],
         [\"askbatch\",r,p,e,g,r2,p2], [\"restart\",r,p], [\"mark\",r,p,e],
         [\"submitcold\",r,p,TXN], [\"cool\",r,p,KEY]

r and p are a replica and a partition, e an epoch, n a request's number in its
epoch, g a group, k the number of a packet; all count from 0. `calvin serial
--help` shows the forms of a TXN and a KEY.

A line for each event says how it ended, `k ok` or `k refused number`; one for
each node where it stands, `node r.p stands e rows m`; one for each request that
was answered, `epoch.n client:number answer`. Each node has a last epoch at whose
end it stands, or none; the last line is `finished` and the least of them.

`calvin --help` lists the exit statuses.";

/// What help says of a run in a world.
pub(crate) const SIM_HELP: &str = "\
The script comes on standard input, as `calvin serial --help` shows it. It is run in
a world of as many partitions as it has: each batch is submitted at its group's node
of replica 0 and closed, then events are drawn from the number --start, with
--restarts also restarts, points with snapshots of them, and coolings, and then
packets are delivered and nodes work on, for 64 rounds at most, until each stands at
the end of the last epoch. With --repeat each round delivers all packets again that
were there when it began. With --lose no packet is ever delivered that a node of this
replica sent, and nothing waits for its nodes. The same script, options and program
give the same run.

Each request of the epochs that all nodes finished, those of the lost replica aside,
is answered by a line `epoch.n client:number answer`, in the merged order of all
groups; the last line is `finished` and the last of these epochs, or none.

A group has at most 4,096 requests in the whole script; one with more is refused.

`calvin --help` lists the exit statuses.";

/// What help says of a run in threads.
pub(crate) const RUN_HELP: &str = "\
The script comes on standard input, as `calvin serial --help` shows it. It is run in
a running store of as many partitions as it has: each batch is submitted at its
group's node of replica 0 and closed, and then threads bring all nodes to the end of
the last epoch: some deliver packets, and --workers others run requests. Which thread
comes first is the machine's choice. With --wide each node has a lock of its own, and
the answers are those of one list of events that is made of what each node did.

Each request of the epochs that all nodes finished is answered by a line `epoch.n
client:number answer`, in the merged order of all groups; the last line is
`finished` and the last of these epochs, or none.

A group has at most 4,096 requests in the whole script; one with more is refused.

`calvin --help` lists the exit statuses.";

/// What help says of statuses.
pub(crate) const STATUS_HELP: &str = "\
Statuses:
  0  all went well
  2  the command line or the script is refused, and nothing is printed
  3  the answers aren't the ones that the script of `check` expects; or the store of
     `run` closed before its last epoch, or is still in use, or `run --wide` found no
     list of events of what its nodes did, and nothing is printed
  4  memory ran out, and nothing is printed
  5  reading or writing failed
At 2 to 5 standard error has one line that says why.

`calvin serial --help` and `calvin check --help` show the forms of scripts, and
`calvin sim --help` and `calvin run --help` their options.

`calvin serve` has a command line of its own: it keeps requests in a journal as they
come on standard input, and answers each. `calvin serve --help` shows it.";
