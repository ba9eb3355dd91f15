//! Configurations that have the same order.
ghost use Rattle.std.specs.Prelude.{◌≡◌, ℕ};
ghost use Rattle.calvin_order.specs.Merged.{Assignment};
ghost use Rattle.calvin_order.specs.Configs.{Config, merged, stretch, order};

/// The order goes by the number of partitions and by which epochs are woven, and by nothing else of a configuration.
pub fn same_orders<Args>()
    ensures epoch { (c d : Config) (B : Assignment Args) (e : ℕ) → c.partitions ≡ d.partitions → c.woven_from ≡ d.woven_from → merged c B e ≡ merged d B e }
    ensures epochs { (c d : Config) (B : Assignment Args) (e n : ℕ) → c.partitions ≡ d.partitions → c.woven_from ≡ d.woven_from → stretch c B e n ≡ stretch d B e n }
    ensures first { (c d : Config) (B : Assignment Args) (n : ℕ) → c.partitions ≡ d.partitions → c.woven_from ≡ d.woven_from → order c B n ≡ order d B n }
{}
