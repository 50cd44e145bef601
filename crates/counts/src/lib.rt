//! The numbers of the March listing: rights reported, rights held, rights used, and the share.
#![tactic(auto)]

ghost use Rattle.std.specs.Prelude.{◌≡◌, ◌<◌, ◌≤◌, get_or};
ghost use Rattle.sets.specs.Lists.{sum, below, table};
ghost use Rattle.sets.specs.Bits.{size, meet};
ghost use Rattle.klaim.specs.Limits.{site_limit};
ghost use Rattle.klaim.specs.Net.{home};
ghost use Rattle.klaim.specs.Listing as Listing;
ghost use Rattle.tables.specs.View.{net_view};

use sets::EVERY;
use std::array;
use tables::{Net, REPORT, SITES};

// How many rights a set has.
fn size_of(rights: u8) -> u32
    ensures { result ≡ size rights }
{
    let few = rights % 2 + rights / 2 % 2 + rights / 4 % 2;
    let all = few + rights / 8 % 2 + rights / 16 % 2;
    u32::from(all)
}

// The number of rights reported.
pub fn reported(report: &[u8; REPORT]) -> u32
    ensures { result ≡ Listing.reported report.now }
{
    let mut count = 0;
    for rights in report {
        count += size_of(*rights);
    }
    count
}

// The rights in the home policy of a site that are usable.
pub fn used_count(net: &Net, usable: [u8; SITES], s: u8) -> u32
    requires { s < site_limit }
    ensures { result ≡ sum (λ t. size (meet (home (net_view net.now) s t) (get_or usable t 0))) (below site_limit) }
{
    let mut count = 0;
    for t in 0..SITES {
        count += size_of(net.home(s, t as u8) & usable[t]);
    }
    count
}

// The rights in the home policy of a site: every right is usable.
fn home_count(net: &Net, s: u8) -> u32
    requires { s < site_limit }
    ensures { result ≡ Listing.home_count (net_view net.now) s }
{
    used_count(net, [EVERY; SITES], s)
}

// The same of every site.
pub fn home_counts(net: &Net) -> [u32; SITES]
    ensures { result ≡ table site_limit (Listing.home_count (net_view net.now)) }
{
    array::from_fn(|s| home_count(net, s as u8))
}

// a / p to the nearest number, a half to the even one; a is at most 1000 times the 160 rights of a home policy.
fn nearest(p: u32, a: u32) -> u32
    requires { (0 < p) × (a ≤ 160000) }
    ensures { result ≡ Listing.nearest p a }
{
    let n = a / p;
    let twice = 2 * (a % p);
    if twice < p {
        return n;
    }
    if p < twice {
        return n + 1;
    }
    if n % 2 == 0 {
        return n;
    }
    n + 1
}

// The share in thousandths, to the nearest; of nothing, 0.
pub fn share(p: u32, q: u32) -> u32
    requires { q ≤ 160 }
    ensures { result ≡ Listing.share p q }
{
    if p == 0 {
        return 0;
    }
    nearest(p, 1000 * q)
}
