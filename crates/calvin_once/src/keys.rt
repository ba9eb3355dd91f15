//! Where replies are kept.
ghost use Rattle.std.specs.Prelude.{◌≡◌, ◌<◌};
ghost use Rattle.calvin_once.specs.Once.{kept_key};

use calvin_types::{Key, RequestId};

/// Where the reply to the request of this name is kept round an application with this top table: in the table after it,
/// under the client and the number in one.
pub fn kept_key(top: u8, id: RequestId) -> Key
    requires { top < 255 }
    ensures { result ≡ kept_key top id }
{
    Key {
        table: top + 1,
        id: id.client as u64 * 4_294_967_296 + id.number as u64,
    }
}
