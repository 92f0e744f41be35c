// How a limit is typed, and the reader that turns it to whole centimetres, rounded down once from the exact value of its 64 bits.
// The arithmetic is on whole numbers of 64 bits; no figure is multiplied as a float.
#![tactic(auto)]

ghost use Rattle.std.specs.Prelude.{◌≡◌, ◌*◌, ◌^◌, ◌<◌};
ghost use Rattle.std.specs.Float.{binary64};
ghost use Rattle.std.specs.Float.Ieee.{of_bits};
ghost use Rattle.length.specs.Limit.{reading, limit_of};
ghost use Rattle.length.specs.InnerSmall.{Small};

// A length limit: a binary64 figure in metres, feet, centimetres or international feet. Feet are survey feet.
#[derive(Clone, Copy)]
pub enum Length {
    Metres(f64),
    Feet(f64),
    Centimetres(f64),
    InternationalFeet(f64),
}

// A thinning order has no limit, or a length limit. Thinning matches this one, the limit reader the length inside.
#[derive(Clone, Copy)]
pub enum Order {
    NoLimit,
    Limit(Length),
}

// The most centimetres of a usable limit.
pub const MOST_LIMIT: u64 = 200000;

// The weight of the sign among a figure's 64 bits.
const SIGN: u64 = 0x8000_0000_0000_0000;

// The weight of the exponent's field, and of the leading digit, which the bits leave out.
const LEADING: u64 = 0x10_0000_0000_0000;

// The limit in whole centimetres, none where it is unusable: a line for each unit. The power of two keeps num small: 120000 / 3937 is 1875 x 2^6 / 3937, and 3048 / 100 is
// 381 x 2^3 / 100.
pub fn read_limit(l: Length) -> Option<u64>
    ensures { result ≡ limit_of l }
{
    match l {
        Length::Metres(v) => read_figure(v, 100, 0, 1),
        Length::Feet(v) => read_figure(v, 1875, 6, 3937),
        Length::Centimetres(v) => read_figure(v, 1, 0, 1),
        Length::InternationalFeet(v) => read_figure(v, 381, 3, 100),
    }
}

// A figure of a unit of num x 2^up / den centimetres.
fn read_figure(v: f64, num: u64, up: u64, den: u64) -> Option<u64>
    requires { Small num up den }
    ensures { result ≡ reading v (num * 2 ^ up) den }
{
    // only a NaN differs from itself
    if v != v {
        return None;
    }
    let b = f64::to_bits(v);
    if b < SIGN {
        return read_bits(b, num, up, den);
    }
    // below zero
    if SIGN < b {
        return None;
    }
    // minus zero
    Some(0)
}

// The same by a figure's 64 bits, the sign clear. Where field is not 0, they say (LEADING + digits) x 2^field / 2^1075.
fn read_bits(b: u64, num: u64, up: u64, den: u64) -> Option<u64>
    requires b_bound { b < 2 ^ 63 }
    requires small { Small num up den }
    ensures { result ≡ reading (of_bits binary64 b) (num * 2 ^ up) den }
{
    let field = b / LEADING;
    let digits = b % LEADING;
    // zero, or below 2^-1022
    if field == 0 {
        return Some(0);
    }
    // from this field on no bit is cut: 2^52 / den centimetres or more, or an infinity
    let top = 1075 - up;
    if top <= field {
        return None;
    }
    let cut = top - field;
    // every bit is cut, since the product below fits 64
    if 64 <= cut {
        return Some(0);
    }
    // this rounds down as one division by den x 2^cut does
    let c = ((LEADING + digits) * num >> cut) / den;
    if c <= MOST_LIMIT { Some(c) } else { None }
}
