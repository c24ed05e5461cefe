use golden_lines::Piece::{Text, Truth};
use golden_lines::{Stop, numbers_of, put_numbers, say, say_line};
use res_vector::{Res, Sum, are_quantities, at_least, fits, is_zero, minus, sum_fits, times};
use std::alloc::Global;

fn tell(rt: &HostRuntime, sum: &Sum) -> Result<(), Stop> {
    say(rt, &[Text("places")])?;
    for place in sum.q {
        print!(rt; " {place}")?;
    }
    say_line(rt, &[])?;
    Ok(())
}

fn tell_test(rt: &HostRuntime, is_so: bool) -> Result<(), Stop> {
    say_line(rt, &[Truth(is_so)])?;
    Ok(())
}

fn tell_minus(rt: &HostRuntime, a: &Res, b: &Res) -> Result<(), Stop> {
    if fits(b, a) {
        tell(rt, &times(&minus(a, b), 1))
    } else {
        say_line(rt, &[Text("not within")])
    }
}

fn tell_quantities(rt: &HostRuntime, alloc: Global, text: &str) -> Result<(), Stop> {
    let numbers = numbers_of(alloc, text)?;
    say_line(
        rt,
        &[
            Text("are "),
            Truth(are_quantities(&numbers)),
            Text(" zero "),
            Truth(is_zero(&numbers)),
        ],
    )?;
    Ok(())
}

/// Prints the answer of a call of two vectors, or of a vector and a number, which `/` parts.
pub fn vectors(rt: &HostRuntime, alloc: Global, call: &str, rest: &str) -> Result<(), Stop> {
    let (first, second) = rest.split_once('/').unwrap_or((rest, ""));
    let (mut a, mut b) = (Res { q: [0; 8] }, Res { q: [0; 8] });
    put_numbers(&mut a.q, first);
    put_numbers(&mut b.q, second);
    match call {
        "fits" => tell_test(rt, fits(&a, &b)),
        "at_least" => tell_test(rt, at_least(&a, &b)),
        "minus" => tell_minus(rt, &a, &b),
        "times" => tell(rt, &times(&a, b.q[0].min(4_294_967_295) as u32)),
        "sum_fits" => tell_test(rt, sum_fits(&times(&a, 3), &b)),
        "quantities" => tell_quantities(rt, alloc, first),
        _ => say_line(rt, &[Text("no such call")]),
    }
}
