//! The width of a degree of longitude.

ghost use Rattle.std.specs.Prelude.{◌≡◌, ◌≤◌};
ghost use Rattle.geo_length.specs.Widths.{width_at};

static WIDTHS: [u64; 91] = [
    10000, 9998, 9994, 9986, 9976, 9962, 9945, 9925, 9903, 9877, 9848, 9816, 9781, 9744, 9703,
    9659, 9613, 9563, 9511, 9455, 9397, 9336, 9272, 9205, 9135, 9063, 8988, 8910, 8829, 8746, 8660,
    8572, 8480, 8387, 8290, 8192, 8090, 7986, 7880, 7771, 7660, 7547, 7431, 7314, 7193, 7071, 6947,
    6820, 6691, 6561, 6428, 6293, 6157, 6018, 5878, 5736, 5592, 5446, 5299, 5150, 5000, 4848, 4695,
    4540, 4384, 4226, 4067, 3907, 3746, 3584, 3420, 3256, 3090, 2924, 2756, 2588, 2419, 2250, 2079,
    1908, 1736, 1564, 1392, 1219, 1045, 872, 698, 523, 349, 175, 0,
];

/// How wide a degree of longitude is at a whole degree of latitude, in ten-thousandths of its width at the
/// equator.
#[tactic(auto, unfolding(crate::specs::Widths::width_at))]
pub fn width(degree: u64) -> u64
    requires { degree ≤ 90 }
    ensures value { result ≡ width_at degree }
    ensures within { result ≤ 10000 }
{
    WIDTHS[degree as usize]
}
