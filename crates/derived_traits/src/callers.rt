//! What a call returns at any type that has the trait, in words of the trait. The other modules say what these words
//! mean at each type: for example, `clones` proves what `clone_of` requires.
ghost use Rattle.std.specs.Prelude.{◌≡◌, ◌↔◌, IsTrue, Some};
ghost use Rattle.ether_base.specs.Enumerations.Hashes.{hashed};

use ether_base::VlanId;
use std::alloc::AllocError;
use std::cmp::Ordering;
use std::hash::{DefaultHasher, Hash, Hasher};

pub fn clone_of<T: Clone>(value: &T) -> Result<T, AllocError>
    requires { (a b : _) → T.is_infallible a × (T.is_clone a b → b ≡ a) }
    ensures { result ≡ Ok value.now }
{
    value.clone()
}

pub fn is_same<T: PartialEq>(a: &T, b: &T) -> bool
    ensures { result ≡ T.eq a.now b.now }
{
    *a == *b
}

pub fn hash_of<T: Hash>(value: &T) -> u64
    ensures { result ≡ hashed (T.hash_input value.now) }
{
    let mut state = DefaultHasher::new();
    value.hash(&mut state);
    state.finish()
}

/// Values that are equal by `==` feed a hasher the same.
pub fn hashes_alike<T: Hash>(a: &T, b: &T) -> bool
    ensures { IsTrue result }
{
    *a != *b || hash_of(a) == hash_of(b)
}

pub fn order_of<T: Ord>(a: &T, b: &T) -> Ordering
    ensures { result ≡ T.cmp a.now b.now }
{
    a.cmp(b)
}

pub fn partial_order_of<T: Ord>(a: &T, b: &T) -> Option<Ordering>
    ensures { result ≡ Some (T.cmp a.now b.now) }
{
    a.partial_cmp(b)
}

pub fn default_of<T: Default>() -> T
    ensures { T.is_default result }
{
    T::default()
}

pub fn twice<T: Copy>(value: T) -> (T, T)
    ensures { result ≡ (value, value) }
{
    (value, value)
}

/// An example of `clone_of` at one type.
pub fn clone_of_vlan_id(value: &VlanId) -> Result<VlanId, AllocError>
    ensures { result ≡ Ok value.now }
{
    clone_of(value)
}

pub fn is_same_vlan_id(a: &VlanId, b: &VlanId) -> bool
    ensures { IsTrue result ↔ (a.now ≡ b.now) }
{
    is_same(a, b)
}

pub fn default_vlan_id() -> VlanId
    ensures { result ≡ 0 }
{
    default_of()
}
