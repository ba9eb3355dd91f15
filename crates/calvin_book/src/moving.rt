//! A book goes from thread to thread, and stands under a lock that threads share: the compiler looks at it here, with the
//! keepers of `StoreBook`, and no thread is started.
ghost use Rattle.std.specs.Prelude.{◌≡◌};

use crate::book::StoreBook;
use calvin_app::App;
use calvin_types::Fault;
use std::alloc::Global;
use std::sync::{Arc, Mutex};

/// A book can be moved to another thread.
pub fn moved<A: App + Drop + Send>(book: StoreBook<A>) -> StoreBook<A>
where
    A::Args: Send + Sync,
    A::Row: Send + Sync,
    A::Reply: Send + Sync,
    ensures { result ≡ book }
{
    sent(book)
}

/// A lock round a book can be shared by threads. Refused with `OutOfMemory` where there was no room for it.
pub fn locked<A: App + Drop + Send>(
    alloc: Global,
    book: StoreBook<A>,
) -> Result<Arc<Mutex<Option<StoreBook<A>>>>, Fault>
where
    A::Args: Send + Sync,
    A::Row: Send + Sync,
    A::Reply: Send + Sync,
{
    Ok(shared(Arc::new(alloc, Mutex::new(Some(book)))?))
}

/// What can be moved to another thread.
fn sent<T: Send>(value: T) -> T
    ensures { result ≡ value }
{
    value
}

/// What threads can share.
fn shared<T: Send + Sync>(value: T) -> T
    ensures { result ≡ value }
{
    value
}
