//! The sample city, as a region file holds it.

ghost use Rattle.std.specs.Prelude.{◌≡◌, ◌≤◌, None, IfOk};
ghost use Rattle.mode_network.specs.Rules.{first_fault};
ghost use Rattle.sample_city.specs.SampleCity.{IsSampleCity};

use mode_network::Network;
use plan_base::Caps;
use region_file::{Format, RegionFault, decode, encode};
use sample_city::sample;
use std::alloc::{AllocError, Global};

/// The sample city, written as a region and read from it.
pub(crate) fn city_read_back(alloc: Global, n: u32, caps: &Caps) -> Result<Network, AllocError>
    requires some { 1 ≤ n }
    requires size { n ≤ 300 }
    ensures { IfOk result (IsSampleCity n) }
{
    let city = city_of(alloc, n, caps)?;
    read_back(alloc, &city, caps)
}

/// The sample city. One that is past a limit of `caps` is refused like want of memory.
fn city_of(alloc: Global, n: u32, caps: &Caps) -> Result<Network, AllocError>
    requires some { 1 ≤ n }
    requires size { n ≤ 300 }
    ensures city { IfOk result (IsSampleCity n) }
    ensures faultless { IfOk result (λ network. first_fault caps.now network ≡ None) }
{
    match sample(alloc, n, caps) {
        Ok(city) => Ok(city),
        Err(_) => Err(AllocError),
    }
}

/// A network, written as a region and read from it.
fn read_back(alloc: Global, network: &Network, caps: &Caps) -> Result<Network, AllocError>
    requires { first_fault caps.now network.now ≡ None }
    ensures { IfOk result (λ again. again ≡ network.now) }
{
    let bytes = encode(alloc, network, Format::Binary)?;
    match decode(alloc, &bytes, caps) {
        Ok(again) => Ok(again),
        Err(RegionFault::OutOfMemory) => Err(AllocError),
        Err(_) => unreachable!(),
    }
}
