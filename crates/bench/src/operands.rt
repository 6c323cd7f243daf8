//! The names and the numbers of the calls that are timed.

use cvl_text::{Call, Z2};
use std::alloc::Global;
use vector_memory::Name;

/// A letter and a number below 100.
pub fn name(letter: u8, number: u64) -> Option<Name> {
    let tens = (number / 10 % 10) as u8;
    let ones = (number % 10) as u8;
    Name::read(&[letter, b'0' + tens, b'0' + ones])
}

/// So many numbers, from the first on by steps.
pub fn numbers(alloc: Global, items: u32, first: i64, step: i64) -> Option<Vec<i64>> {
    let mut numbers = Vec::with_capacity(alloc, items as usize).ok()?;
    let mut number = first;
    for _ in 0..items {
        numbers.push(number).ok()?;
        number = number.wrapping_add(step);
    }
    Some(numbers)
}

/// The call `x = add_wuz x y`.
pub fn add(x: Name, y: Name) -> Call {
    Call::MapZ2 {
        to: x,
        op: Z2::Add,
        a: x,
        b: y,
    }
}

/// So many calls `x = add_wuz x y`. None where memory is refused.
pub fn adds(alloc: Global, count: u32, x: Name, y: Name) -> Option<Vec<Call>> {
    let mut calls = Vec::with_capacity(alloc, count as usize).ok()?;
    for _made in 0..count {
        calls.push_reserved(add(x, y));
    }
    Some(calls)
}
