// Exact sums wider than an i64, and the one rounding: 6,000,000 times a whole part, and a rest.
// All here is inner: the calls that report sums and figures bound them first, by a check of the stages or by what a job may hold.
#![tactic(auto)]

ghost use Rattle.std.specs.Prelude.{◌≡◌, ◌+ℤ◌, ◌-ℤ◌};
ghost use Rattle.wide.specs.Rounding.{figure};
ghost use Rattle.wide.specs.Wide.{value, Exact};
ghost use Rattle.wide.specs.Inner.{Fits};

// Six times the cubic centimetres of a cubic metre.
const DIVISOR: i64 = 6000000;

// The rests are below it.
const WHOLE: u64 = DIVISOR as u64;

const HALF: u64 = WHOLE / 2;

// An exact sum: 6,000,000 times the whole part, and the rest, which is below 6,000,000.
#[derive(Clone, Copy)]
pub struct Wide {
    pub whole: i64,
    pub rest: u64,
}

// Inner: a sum as whole part and rest, any sum at all: the rest is never below zero, whatever the sum's sign.
pub fn enter(s: i64) -> Wide
    ensures { Exact s result }
{
    Wide {
        whole: s.div_euclid(DIVISOR),
        rest: s.rem_euclid(DIVISOR) as u64,
    }
}

// Inner: the sum of two.
pub fn add(a: Wide, b: Wide) -> Wide
    requires { Fits a × Fits b }
    ensures { Exact (value a +ℤ value b) result }
{
    let whole = a.whole + b.whole;
    let rest = a.rest + b.rest;
    if rest < WHOLE {
        return Wide { whole, rest };
    }
    Wide {
        whole: whole + 1,
        rest: rest - WHOLE,
    }
}

// Inner: a less b.
pub fn less(a: Wide, b: Wide) -> Wide
    requires { Fits a × Fits b }
    ensures { Exact (value a -ℤ value b) result }
{
    let whole = a.whole - b.whole;
    if b.rest <= a.rest {
        return Wide {
            whole,
            rest: a.rest - b.rest,
        };
    }
    Wide {
        whole: whole - 1,
        rest: a.rest + WHOLE - b.rest,
    }
}

// Inner: the figure in cubic metres of an exact sum. The rest counts upwards on either side of zero, so below zero a half stays.
pub fn cubic_metres(w: Wide) -> i64
    requires { Fits w }
    ensures { result ≡ figure (value w) }
{
    let whole = w.whole;
    let rest = w.rest;
    if whole < 0 {
        if HALF < rest {
            return whole + 1;
        }
        return whole;
    }
    if HALF <= rest {
        return whole + 1;
    }
    whole
}
