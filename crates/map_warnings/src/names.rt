//! Names of textures and flats, put in order by their numbers.

ghost use Rattle.std.specs.Prelude.{◌≡◌, ◌↔◌, ◌+◌, ◌<◌, ◌^◌, ℕ, Contains, IsTrue, OnOk, length};
ghost use Rattle.std.specs.List.Sorted.{IsNonDecreasing};
ghost use Rattle.map_warnings.specs.NameNumber.{name_number, AddsNames, IsNumbered};

use le_rec::Name8;
use std::alloc::{AllocError, Allocator, Global};
use std::marker::Model;

/// Names of at most eight bytes, which can be asked whether a name is among them. They take eight bytes each.
#[derive(Debug, Drop)]
pub struct Names<A: Allocator = Global> {
    numbers: Vec<u64, A>,
}

impl<A: Allocator> Model for Names<A> {
    ghost use Rattle.std.specs.Prelude.{ℕ, List};
    ghost use Rattle.std.specs.List.Sorted.{IsNonDecreasing};

    ghost Value = { List ℕ };

    ghost view = { λ names. names.numbers.items };

    ghost invariant = { λ names. IsNonDecreasing names.numbers.items };
}

impl<A: Allocator> Names<A> {
    /// The names of some numbers, which are put in order.
    pub fn of(numbers: Vec<u64, A>) -> Names<A>
        ensures long { length result ≡ length numbers.items }
        ensures same { (n : ℕ) → Contains result n ↔ Contains numbers.items n }
    {
        let mut numbers = numbers;
        numbers.sort_unstable();
        Names { numbers }
    }

    /// Whether a name is one of them.
    pub fn contains(&self, name: Name8) -> bool
        ensures has { IsTrue result ↔ Contains self.now (name_number name) }
        ensures numbered { IsNumbered name (name_number name) }
    {
        has_number(&self.numbers, name_number(name))
    }
}

// Whether a number is among sorted ones.
fn has_number(numbers: &[u64], number: u64) -> bool
    requires { IsNonDecreasing numbers.now }
    ensures { IsTrue result ↔ Contains numbers.now number }
{
    numbers.binary_search(&number).is_ok()
}

/// Adds the number of a name.
pub fn push_name<A: Allocator>(numbers: &mut Vec<u64, A>, name: Name8) -> Result<(), AllocError>
    ensures adds { OnOk result (AddsNames (λ other. other ≡ name) numbers.old.items numbers.new.items) }
    ensures one { OnOk result (length numbers.new.items ≡ length numbers.old.items + 1) }
{
    numbers.push(name_number(name))?;
    Ok(())
}

// The number of a name.
fn name_number(name: Name8) -> u64
    ensures value { result ≡ name_number name }
    ensures numbered { IsNumbered name result }
{
    u64::from_be_bytes(name.bytes())
}
