//! Keys by which unknowns and decisions are looked up: numbers made of paths, sites and ways. Two
//! that are the same have one key, but two with one key may differ, since keys wrap around. So
//! whoever finds one compares it, and no answer depends on how keys spread.
ghost use Rattle.std.specs.Prelude.{◌≡◌};
ghost use Rattle.rn_growing.specs.link.Keys.{hole_key, path_key, site_key, stirred};

use crate::decision::Site;

/// What a key is multiplied by before one more number goes into it.
const FACTOR: usize = 16777619;

/// One more number goes into a key.
#[tactic(auto, unfolding(crate::specs::link::Keys::stirred))]
pub(crate) fn stir(key: usize, n: usize) -> usize
    ensures { result ≡ stirred key n }
{
    key.wrapping_mul(FACTOR).wrapping_add(n)
}

/// The key of the node on a path.
pub(crate) fn path_key(path: &[u32]) -> usize
    ensures { result ≡ path_key path.now }
{
    let mut key = 1;
    for n in path {
        key = stir(key, *n as usize);
    }
    key
}

/// The key of an operator application of the node on a path.
pub(crate) fn hole_key(path: &[u32], site: Site, way: &[usize]) -> usize
    ensures { result ≡ hole_key path.now site way.now }
{
    let mut key = site_key(path_key(path), site);
    for n in way {
        key = stir(key, *n);
    }
    key
}

fn site_key(key: usize, site: Site) -> usize
    ensures { result ≡ site_key key site }
{
    match site {
        Site::Left(k) => stir(stir(key, 1), k),
        Site::Right(k) => stir(stir(key, 2), k),
        Site::UplinkArg(k) => stir(stir(key, 3), k),
        Site::Target(k) => stir(stir(key, 4), k),
        Site::DownlinkArg(i, k) => stir(stir(stir(key, 5), i), k),
        Site::Inscription(k) => stir(stir(key, 6), k),
    }
}
