//! What help says.

/// What help says of a service.
pub(crate) const SERVE_HELP: &str = "\
Requests come on standard input, a line each of at most 65,536 bytes, as `calvin
serial --help` shows a TXN, with \"group\":G where it is to be for another group than
the client's number modulo the partitions:

  {\"client\":7,\"number\":1,\"op\":[\"put\",1,5]}

What has come is one epoch. It is added to the journal FILE and synced there, then
it is run, and each of its requests is answered by a line `epoch.n client:number
answer`, in the merged order of all groups. A line K that is no request is answered
in its turn by `line K refused number name`, and is no event. When the input ends
the last line is `finished` and the last epoch, or none.

The journal's first line says what it is of, and each later line is an epoch as a
script lists it, or at the beginning a row. A journal that is there is gone on with, with all rows where its
epochs leave them; a last line that a crash has torn is cut off. At the start the
journal is written anew beside the file, as FILE.anew, and replaces it.

With --compact that journal begins with the rows in which its epochs end, in place
of these epochs, and the service goes on from there; with an empty input that is
all.

With --replay nothing is read: what all epochs of the journal were answered is
printed again, since it was compacted last, and the last line.

Statuses:
  0  all went well
  2  the command line is refused, or FILE is no journal of this kind
  4  memory ran out
  5  reading or writing failed, or the journal: it is in use, or a call of its file
     was refused
At 2 to 5 standard error has one line that says why. What was answered by then is
kept; beside it at most the epoch that came next may be, as a whole.";
