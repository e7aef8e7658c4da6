//! The stores of a unit.
ghost use Rattle.std.specs.Prelude.{◌≡◌, [], ◌∷◌};
ghost use Rattle.pdp_exec.specs.Stores.{list_of};

use its_word::Store;

/// Up to three stores, in their order.
#[derive(Clone, Copy, Debug, PartialEq, Eq)]
pub enum Stores {
    Zero,
    One(Store),
    Two(Store, Store),
    Three(Store, Store, Store),
}

/// No store.
pub fn none() -> Stores
    ensures { list_of result ≡ [] }
{
    Stores::Zero
}

/// One store.
pub fn one(a: Store) -> Stores
    ensures { list_of result ≡ a ∷ [] }
{
    Stores::One(a)
}

/// Two stores, in this order.
pub fn two(a: Store, b: Store) -> Stores
    ensures { list_of result ≡ a ∷ b ∷ [] }
{
    Stores::Two(a, b)
}

/// Three stores, in this order.
pub fn three(a: Store, b: Store, c: Store) -> Stores
    ensures { list_of result ≡ a ∷ b ∷ c ∷ [] }
{
    Stores::Three(a, b, c)
}
