ghost use Rattle.std.specs.Prelude.{◌≡◌, ◌<◌, ◌≤◌, [], true, length, IfOk, IfSome};
ghost use Rattle.std.specs.List.{range_with_len};
ghost use Rattle.std.specs.List.Sorted.{IsPermutation};
ghost use Rattle.message_state.specs.Orders.{place_in, listed_place, KnowsPlaces};

use mail_text::{Items, Memory};
use std::alloc::Global;
use std::marker::Model;

// What is known of the places of the numbers in an order.
#[derive(Drop)]
enum Places {
    // The numbers are those from 1 on.
    ByNumber,
    // The place of number `k` stands at place `k - 1`.
    Listed(Vec<u32>),
    Unknown,
}

/// The numbers of messages in the order of a view. Contracts see the list of them. It knows whether it is the order
/// by number, and as a rule the place of each number, so that none is looked for by a walk.
#[derive(Drop)]
pub struct Order {
    numbers: Items<u32>,
    places: Places,
}

impl Model for Order {
    ghost use Rattle.std.specs.Prelude.{ℕ, List};
    ghost use Rattle.message_state.specs.Orders.{KnowsPlaces};

    ghost Value = { List ℕ };

    ghost view = { λ o. o.numbers };

    ghost invariant = { λ o. KnowsPlaces o.numbers o.places };
}

// The numbers from 1 on.
fn numbers(alloc: Global, count: u32) -> Result<Items<u32>, Memory>
    ensures { IfOk result (λ order. order ≡ range_with_len 1 count) }
{
    let mut order = Items::new(alloc);
    for k in 0..count {
        order.push(k + 1)?;
    }
    Ok(order)
}

// The place of each number of an order in which each number from 1 on stands once.
fn places_of(alloc: Global, numbers: &[u32]) -> Result<Vec<u32>, Memory>
    requires once { IsPermutation (range_with_len 1 (length numbers.now)) numbers.now }
    requires few { length numbers.now ≤ u32.MAX }
    ensures { IfOk result (λ places. KnowsPlaces numbers.now (Places.Listed places)) }
{
    let mut places = vec![in alloc; 0; numbers.len()]?;
    for (p, n) in numbers.iter().enumerate() {
        places[*n as usize - 1] = p as u32;
    }
    Ok(places)
}

// The place of number `k` in the order by number.
fn place_by_number(count: usize, k: u32) -> Option<usize>
    ensures { result ≡ place_in (range_with_len 1 count) k }
{
    if k == 0 {
        return None;
    }
    if k as usize > count {
        return None;
    }
    Some(k as usize - 1)
}

// The place that a list has for number `k`.
fn listed_place(places: &[u32], k: u32) -> Option<usize>
    ensures { result ≡ listed_place places.now k }
{
    if k == 0 {
        return None;
    }
    match places.get(k as usize - 1) {
        Some(place) => Some(*place as usize),
        None => None,
    }
}

// The first place where number `k` stands.
fn first_place(numbers: &[u32], k: u32) -> Option<usize>
    ensures { result ≡ place_in numbers.now k }
{
    numbers.iter().position(|n| *n == k)
}

impl Order {
    /// No numbers. It takes no memory.
    pub fn new(alloc: Global) -> Order
        ensures { result ≡ [] }
    {
        Order::of(Items::new(alloc))
    }

    /// These numbers, in this order. It takes no memory, and a number is looked for by a walk.
    pub fn of(numbers: Items<u32>) -> Order
        ensures { result ≡ numbers }
    {
        Order {
            numbers,
            places: Places::Unknown,
        }
    }

    /// These numbers, in this order: each from 1 to their count once.
    pub fn listed(alloc: Global, numbers: Items<u32>) -> Result<Order, Memory>
        requires once { IsPermutation (range_with_len 1 (length numbers)) numbers }
        requires few { length numbers ≤ u32.MAX }
        ensures { IfOk result (λ order. order ≡ numbers) }
    {
        let places = places_of(alloc, numbers.items())?;
        Ok(Order {
            numbers,
            places: Places::Listed(places),
        })
    }

    /// The numbers from 1 to the count.
    pub fn by_number(alloc: Global, count: u32) -> Result<Order, Memory>
        ensures { IfOk result (λ order. order ≡ range_with_len 1 count) }
    {
        let numbers = numbers(alloc, count)?;
        Ok(Order {
            numbers,
            places: Places::ByNumber,
        })
    }

    /// The numbers as a slice.
    pub fn items(&self) -> &[u32]
        ensures { result.now ≡ self.now }
    {
        self.numbers.items()
    }

    /// Whether this is known to be the order by number.
    pub fn is_by_number(&self) -> bool
        ensures { result ≡ true → self.now ≡ range_with_len 1 (length self.now) }
    {
        match &self.places {
            Places::ByNumber => true,
            Places::Listed(_) | Places::Unknown => false,
        }
    }

    /// The place of number `k`, from 0. It takes no memory.
    pub fn place(&self, k: u32) -> Option<usize>
        ensures place { result ≡ place_in self.now k }
        ensures within { IfSome result (λ p. p < length self.now) }
    {
        match &self.places {
            Places::ByNumber => place_by_number(self.numbers.items().len(), k),
            Places::Listed(places) => listed_place(places, k),
            Places::Unknown => first_place(self.numbers.items(), k),
        }
    }
}
