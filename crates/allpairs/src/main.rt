//! Compares half products and sums, in all three modes, with a second method that shares nothing with the first: every
//! unordered pair of half codes is worked out in the machine's f64, in which products and sums of half values are exact, and
//! the result is looked up between the values of neighbouring codes.
#![tactic(auto)]

mod compare;
mod judge;

use compare::{Tally, compare_all};
use half::product::Product;
use half::sum::Sum;
use judge::Values;
use std::io;

fn main(rt: HostRuntime) -> io::Result<()> {
    let values = Values::of_codes(rt.alloc())?;
    let products = compare_all::<Product>(&values);
    report(&rt, "product", products)?;
    let sums = compare_all::<Sum>(&values);
    report(&rt, "sum", sums)
}

fn report(rt: &HostRuntime, name: &str, tally: Tally) -> io::Result<()> {
    let pairs = tally.pairs;
    let [zero, nearest, up] = tally.differences;
    println!(rt;
        "{name}: {pairs} pairs, differences: {zero} toward zero, {nearest} to nearest, {up} up"
    )
}
