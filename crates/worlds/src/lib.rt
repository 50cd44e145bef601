//! A net and its estimate, read from their bytes.
#![tactic(auto)]

ghost use Rattle.std.specs.Prelude.{◌≡◌};
ghost use Rattle.klaim.specs.Reader.{read_both};
ghost use Rattle.klaim.specs.Refusals.{answer_of};
ghost use Rattle.worlds.specs.World.{world_view};

use klaim::Refusal;
use tables::{Estimate, Net};

// A net and its estimate.
#[derive(Clone, Copy)]
pub struct World {
    pub net: Net,
    pub estimate: Estimate,
}

// The net is read before the estimate.
pub fn read_both(net: &[u8], estimate: &[u8]) -> Result<World, Refusal>
    ensures { answer_of world_view result ≡ read_both net.now estimate.now }
{
    let net = nets::read_net(net)?;
    let estimate = estimates::read_estimate(net.size, estimate)?;
    Ok(World { net, estimate })
}
