#![tactic(auto, using(std::proofs::lemmas::Int::wraps))]

ghost use Rattle.std.specs.Prelude.{◌≡◌};
ghost use Rattle.word.specs.Arithmetic.{sum, difference, product, quotient, less, Samples};

pub fn add(a: i32, b: i32) -> i32
    ensures { result ≡ sum a b }
{
    a.wrapping_add(b)
}

pub fn sub(a: i32, b: i32) -> i32
    ensures { result ≡ difference a b }
{
    a.wrapping_sub(b)
}

pub fn mul(a: i32, b: i32) -> i32
    ensures { result ≡ product a b }
{
    a.wrapping_mul(b)
}

fn divided(a: i32, b: i32) -> Option<i32>
    ensures { result ≡ quotient a b }
{
    match b {
        0 => None,
        // the smallest number gives itself; `wrapping_div` says so in bits, and its proof stayed open
        -1 => Some(sub(0, a)),
        _ => Some(a / b),
    }
}

// The quotient without its fraction, or none by 0.
pub fn div(a: i32, b: i32) -> Option<i32>
    ensures value { result ≡ quotient a b }
    ensures samples { Samples }
{
    divided(a, b)
}

pub fn less(a: i32, b: i32) -> bool
    ensures { result ≡ less a b }
{
    a < b
}
