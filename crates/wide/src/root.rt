// The square root of a u64, rounded down: a guess by a table, one step of Newton's method from it, which brings it to the
// root or above, and more steps while it is above. The guess decides only how many steps there are: mostly one, where the
// library's `isqrt` halves an interval 32 times.
ghost use Rattle.std.specs.Prelude.{◌^◌, ◌<◌};
ghost use Rattle.exact.specs.Root.{IsRoot};
ghost use Rattle.wide.specs.Laws.Ranges.{GuessRange, RootOrAbove};

// The curve of the roots from i/32 to (i + 1)/32, as 24, 20 and 20 bits: where it starts, how far it rises, and four times
// how far it bulges above a straight line, in units of 2^-24. By cases, of which the compiler makes a table: so no index
// is to be shown in range.
fn piece(i: u64) -> u64 {
    match i {
        8 => 9223404456206416508,
        9 => 9782887620572885373,
        10 => 10312062751158053526,
        11 => 10815377371553604902,
        12 => 11296289445152563400,
        13 => 11757548850042117428,
        14 => 12201383196405799484,
        15 => 12629629767885264829,
        16 => 13043824582001169821,
        17 => 13445265062292886473,
        18 => 13835062814870344244,
        19 => 14214175514244944082,
        20 => 14583435490618249115,
        21 => 14943573919143038599,
        22 => 15295235113561886098,
        23 => 15638990819864612023,
        24 => 15975351211395124209,
        25 => 16304774784459213631,
        26 => 16627672756367919774,
        27 => 16944417861530552843,
        28 => 17255350948523411845,
        29 => 17560778781064431882,
        30 => 17860985033133656217,
        _ => 18156226990429964337,
    }
}

// The point of a piece at right/2^16 of its way, in units of 2^-40.
fn point(p: u64, right: u64) -> u64
    requires { right < 65536 }
    ensures { result < 2 ^ 62 }
{
    let bulge = p % 1048576 * (65536 - right) / 65536;
    let rise = p / 1048576 % 1048576 + bulge;
    p / 1099511627776 * 65536 + rise * right
}

// x is shifted by an even number of bits to 2^62 or above: its 5 top bits choose a piece, and the 16 below them a point.
fn guess(x: u64) -> u64
    requires { 0 < x }
    ensures { GuessRange result }
{
    let s = x.leading_zeros();
    let even = s - s % 2;
    let m = x << even;
    let p = piece(m / 576460752303423488);
    let near = point(p, m / 8796093022208 % 65536);
    (near >> (even / 2 + 8)) + 2
}

// One step of Newton's method: from any guess it comes to the root or above.
fn stepped(x: u64, g: u64) -> u64
    requires { GuessRange g }
    ensures { RootOrAbove x result }
{
    let r = (g + x / g) / 2;
    // no root of a u64 is above this, and the square of more would not fit
    r.min(4294967295)
}

pub fn root(x: u64) -> u64
    ensures { IsRoot x result }
{
    if x == 0 {
        return 0;
    }
    let mut r = stepped(x, guess(x));
    while x < r * r {
        r = (r + x / r) / 2;
    }
    r
}
