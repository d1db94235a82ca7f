//! Sets and maps as lists in ascending order of their numbers.
ghost use Rattle.std.specs.Prelude.{◌≡◌, true, length, map, take_while, nat_le, nat_lt, OnOk, OnErr};
ghost use Rattle.std.specs.Option.{option_copied};
ghost use Rattle.element_name.specs.Numbered.{is_rising, put_by, without, find_by};

use element_name::NoMemory;

/// What stands under a number in a list that ascends by it.
pub trait Numbered: Drop {
    ghost use Rattle.std.specs.Prelude.{◌≡◌, ℕ};

    ghost number_of: { Self → ℕ };

    fn number(&self) -> u16
        ensures { result ≡ number_of self.now };
}

impl Numbered for u16 {
    ghost number_of = { λ n. n };

    fn number(&self) -> u16 {
        *self
    }
}

/// What stands under the number, found by halves.
pub fn find<T: Numbered>(items: &[T], number: u16) -> Option<&T>
    requires { is_rising nat_lt (map T.number_of items.now) ≡ true }
    ensures { option_copied result ≡ find_by T.number_of number items.now }
{
    match items.binary_search_by_key(&number, |item| item.number()) {
        Ok(place) => items.get(place),
        Err(_) => None,
    }
}

// How many from the beginning have no greater number.
fn place_for<T: Numbered>(items: &[T], number: u16) -> usize
    ensures { result ≡ length (take_while (λ x. nat_le (T.number_of x) number) items.now) }
{
    items
        .iter()
        .take_while(|item| item.number() <= number)
        .count()
}

/// Puts the item in front of the first whose number is greater.
pub fn put<T: Numbered>(items: &mut Vec<T>, item: T) -> Result<(), NoMemory>
    ensures ok { OnOk result (items.new.items ≡ put_by T.number_of item items.old.items) }
    ensures err { OnErr result (items.new.items ≡ items.old.items) }
{
    let place = place_for(items, item.number());
    items.insert(place, item)?;
    Ok(())
}

/// Takes out what stands under the number.
pub fn take_out<T: Numbered>(items: &mut Vec<T>, number: u16)
    ensures { items.new.items ≡ without T.number_of number items.old.items }
{
    items.retain(|item| item.number() != number);
}
