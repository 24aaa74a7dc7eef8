//! Durations of lengths.

ghost use Rattle.std.specs.Prelude.{◌≡◌, ◌^◌, ◌<◌, ◌≤◌, IfSome};
ghost use Rattle.geo_length.specs.Durations.{duration_of};

/// The time in milliseconds that `mm` millimetres take at `speed` mm/s, rounded up, and at least 1.
///
/// `None` exactly where it is 2^32 or more.
#[tactic(auto, unfolding(crate::specs::Durations::duration_of))]
pub fn duration_ms(mm: u64, speed: u32) -> Option<u32>
    requires some_speed { 1 ≤ speed }
    requires length_within { mm < 2 ^ 40 }
    ensures value { result ≡ duration_of mm speed }
    ensures some { IfSome result (λ ms. 1 ≤ ms) }
{
    let ms = (mm * 1000).div_ceil(u64::from(speed)).max(1);
    if ms < 1 << 32 { Some(ms as u32) } else { None }
}
