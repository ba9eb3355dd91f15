//! What becomes of items: new ones, and more pieces.
ghost use Rattle.std.specs.Prelude.{◌≡◌, []};
ghost use Rattle.calvin_stock.specs.Operations.{add_item, restock};

use crate::keys::item_key;
use crate::limits::{MOST_CENTS, MOST_PIECES};
use crate::reply::StockReply;
use crate::rows::{Item, StockRow};
use calvin_app::Writes;

/// Adds an item, whose row is the one that is there so far, if any.
pub(crate) fn add_item(
    item: u64,
    pieces: u64,
    price: u64,
    there: Option<StockRow>,
    writes: &mut Writes<StockRow>,
) -> StockReply
    requires { writes.old ≡ [] }
    ensures { (result, writes.new) ≡ add_item item pieces price there }
{
    if pieces > MOST_PIECES || price > MOST_CENTS {
        return StockReply::Limit;
    }
    if there.is_some() {
        return StockReply::Exists;
    }
    let row = StockRow::Item(Item {
        stock: pieces,
        price,
    });
    writes.push(item_key(item), row);
    StockReply::Done
}

/// Adds pieces to an item, if it is there.
pub(crate) fn restock(
    item: u64,
    pieces: u64,
    found: Option<Item>,
    writes: &mut Writes<StockRow>,
) -> StockReply
    requires { writes.old ≡ [] }
    ensures { (result, writes.new) ≡ restock item pieces found }
{
    let Some(Item { stock, price }) = found else {
        return StockReply::NoItem;
    };
    match stock.checked_add(pieces) {
        Some(stock) if stock <= MOST_PIECES => {
            let row = StockRow::Item(Item { stock, price });
            writes.push(item_key(item), row);
            StockReply::Done
        }
        _ => StockReply::Limit,
    }
}
