// Counts of the wire as `f32`, and the count that a `SetSoc` request sends.
#![tactic(auto)]

ghost use Rattle.std.specs.Prelude.{◌≡◌, pos};
ghost use Rattle.units.specs.Floats.{nearest, tenths, thousandths, current_count};
ghost use Rattle.units.specs.SetSoc.{sent, set_soc_count};

// Two functions alike but for the divisor: each is one line, and has a definition of its own that its callers' clauses name.
pub fn tenths_u16(count: u16) -> f32
    ensures { result ≡ tenths (pos count) }
{
    f32::from(count) / 10.0
}

pub fn thousandths_u16(count: u16) -> f32
    ensures { result ≡ thousandths (pos count) }
{
    f32::from(count) / 1000.0
}

// The wire counts tenths of an ampere, offset by 30000.
pub fn current_count(count: u16) -> i32
    ensures { result ≡ current_count count }
{
    i32::from(count) - 30000
}

// Tenths of a signed count: the current, once its offset is taken off.
pub fn tenths_i32(count: i32) -> f32
    ensures { result ≡ tenths count }
{
    // Up to 2 ^ 24 an `f32` holds the count as it is, and the cast is one instruction. Past it a cast may round, which std has as a free function alone.
    if 16_777_216 < count.unsigned_abs() {
        return std::num::nearest_i32_to_f32(count) / 10.0;
    }
    (count as f32) / 10.0
}

// The nearest `f32`, a tie to the even one. Not std's `nearest_u32_to_f32`, since document 01 names the form: "the normalising shift comes from the count's leading zeros".
pub fn nearest_f32(count: u32) -> f32
    ensures { result ≡ nearest (pos count) }
{
    if count == 0 {
        return 0.0;
    }
    let zeros = count.leading_zeros();
    let shifted = count << zeros;
    // the 24 leading digits, and the 8 that an `f32` has no room for
    let kept = shifted >> 8;
    let rest = shifted % 256;
    // 1 where the rest is over a half, or is a half and the last kept digit is odd
    let up = (rest + 127 + kept % 2) / 256;
    // the highest kept digit adds one to the exponent's field, and a carry out of the 24 digits adds another
    f32::from_bits(((157 - zeros) << 23) + kept + up)
}

// A count of any size, rounded to an `f32` first and then divided: the capacity.
pub fn thousandths_u32(count: u32) -> f32
    ensures { result ≡ thousandths (pos count) }
{
    nearest_f32(count) / 1000.0
}

// The nearest whole number, a half away from zero, limited to 0..1000, from the bits. A NaN gives 0.
pub fn sent_count(product: f32) -> u16
    ensures { result ≡ sent product }
{
    if product.is_nan() {
        return 0;
    }
    let bits = product.to_bits();
    // the sign's bit: negative, or -0
    if bits >= 0x8000_0000 {
        return 0;
    }
    let exponent = bits >> 23;
    // below a half
    if exponent < 126 {
        return 0;
    }
    // 1024 or more, or an infinity
    if exponent >= 137 {
        return 1000;
    }
    // The product is digits * 2 ^ (exponent - 150). Twice it, cut to a whole number, and one more: half of that is the product rounded.
    let digits = bits % 0x80_0000 + 0x80_0000;
    let doubled = digits >> (149 - exponent);
    let rounded = (doubled + 1) / 2;
    rounded.min(1000) as u16
}

// What `SetSoc` sends for a percentage: one `f32` multiply, then an exact rounding.
pub fn set_soc_count(soc_percent: f32) -> u16
    ensures { result ≡ set_soc_count soc_percent }
{
    sent_count(soc_percent * 10.0)
}
