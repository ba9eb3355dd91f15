//! Orders under different configurations.
ghost use Rattle.std.specs.Prelude.{◌≡◌, ℕ, ◌<◌, false, length, Option, IsPermutation};
ghost use Rattle.std.specs.List.{Contains};
ghost use Rattle.calvin_types.specs.declared.txn.Txn.{Txn};
ghost use Rattle.calvin_app.specs.Meaning.{Meaning};
ghost use Rattle.calvin_order.specs.Configs.{Config, woven};
ghost use Rattle.calvin_order.specs.Merged.{Assignment, joined};
ghost use Rattle.calvin_node_acts.specs.Durables.{is_order_changed};
ghost use Rattle.calvin_world.specs.Promises.{rows_after, with_woven};

/// A woven epoch is a permutation of its batches: each request stands in it as often as in them. So it is as long, and has each
/// request of each batch.
pub fn all_are_woven<Args>()
    ensures permutes { (B : Assignment Args) (e g : ℕ) → IsPermutation (joined B e g) (woven B e g) }
    ensures number { (B : Assignment Args) (e g : ℕ) → length (woven B e g) ≡ length (joined B e g) }
    ensures all { (B : Assignment Args) (e g h : ℕ) → h < g → (t : Txn Args) → Contains (B (record { epoch = e; group = h })) t → Contains (woven B e g) t }
{}

/// Where a record isn't refused because of the order, the epochs of its snapshot have the same rows in both orders.
pub fn kept_order_same_rows<Args, Row, Reply>()
    ensures { (m : Meaning Args Row Reply) (c : Config) (a b : Option ℕ) (n : ℕ) → is_order_changed a b n ≡ false → (B : Assignment Args)
        → rows_after m (with_woven c a) B n ≡ rows_after m (with_woven c b) B n }
{}
