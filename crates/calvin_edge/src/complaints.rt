//! What standard error is told of a refusal.
ghost use Rattle.std.specs.Prelude.{◌≡◌};
ghost use Rattle.calvin_edge.specs.Complaints.{complaint};

use arrayvec::ArrayString;
use calvin_types::Fault;
use itoa::Buffer;

/// The line that standard error gets for a fault: `calvin: `, its number, a space, its name and a line feed. It stands
/// in the value itself and takes no memory, so that want of memory can be told too.
pub fn complaint(fault: Fault) -> ArrayString<72>
    ensures text { result.bytes ≡ complaint fault }
{
    let mut number = Buffer::new();
    let mut line = ArrayString::new();
    line.push_str("calvin: ");
    line.push_str(number.format(fault.number()));
    line.push_str(" ");
    line.push_str(fault.name());
    line.push_str("\n");
    line
}
