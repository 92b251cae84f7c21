// The functions of `wide` under C's calling convention, for programs in other languages. C has no generics, so each direction has its own.
// Nothing here tests a `requires`: the caller does, before each call, as twin/measure/wide.rs does.
#![tactic(auto)]

ghost use Rattle.std.specs.Prelude.{◌≡◌, ◌*◌, ◌^◌, ◌<◌};
ghost use Rattle.exact.specs.Root.{IsRoot};
ghost use Rattle.exact.specs.Rounding.{up, down};
ghost use Rattle.exact.specs.Trillion.{trillion};

use wide::ratio::mul_div;
use wide::root::root;
use wide::rounding::{Down, Up};
use wide::trillion::mul_div_trillion;

#[unsafe(no_mangle)]
pub extern "C" fn wide_mul_div_down(a: u64, b: u64, c: u64) -> u64
    requires { (0 < c) × (down (a * b) c < 2 ^ 64) }
    ensures { result ≡ down (a * b) c }
{
    mul_div::<Down>(a, b, c)
}

#[unsafe(no_mangle)]
pub extern "C" fn wide_mul_div_up(a: u64, b: u64, c: u64) -> u64
    requires { (0 < c) × (up (a * b) c < 2 ^ 64) }
    ensures { result ≡ up (a * b) c }
{
    mul_div::<Up>(a, b, c)
}

#[unsafe(no_mangle)]
pub extern "C" fn wide_mul_div_down_trillion(a: u64, b: u64) -> u64
    requires { down (a * b) trillion < 2 ^ 64 }
    ensures { result ≡ down (a * b) trillion }
{
    mul_div_trillion::<Down>(a, b)
}

#[unsafe(no_mangle)]
pub extern "C" fn wide_mul_div_up_trillion(a: u64, b: u64) -> u64
    requires { up (a * b) trillion < 2 ^ 64 }
    ensures { result ≡ up (a * b) trillion }
{
    mul_div_trillion::<Up>(a, b)
}

#[unsafe(no_mangle)]
pub extern "C" fn wide_root(x: u64) -> u64
    ensures { IsRoot x result }
{
    root(x)
}
