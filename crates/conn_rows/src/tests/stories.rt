// Stories of one connection, each made from a number.
mod asks;
mod launch;
mod plain;
mod play;
mod reply;
mod roles;
mod site;
mod story;
mod world;

ghost use Rattle.host_base.specs.SiteRules.{IsServed};

use super::are_right;
use super::parts::Parts;
use host_base::Site;
use play::judge_seed;
use site::SITE;
use site_file::read_site;
use std::alloc::Global;
use std::test::Fail;

// Says which of these stories goes first otherwise than it must.
fn judge_all(alloc: Global, site: &Site, count: u64, said: &mut Parts)
    requires { IsServed site.now }
{
    for seed in 0..count {
        if said.is_empty() {
            judge_seed(alloc, site, seed, said);
        }
    }
}

fn judge_at_site(alloc: Global, count: u64, said: &mut Parts) {
    match read_site(alloc, SITE.as_bytes()) {
        Ok(site) => judge_all(alloc, &site, count, said),
        Err(_) => said.push("no site"),
    }
}

#[test]
fn a_thousand_stories_go_as_they_must(rt: HostRuntime) -> Result<(), Fail> {
    let mut said = Parts::new(rt.alloc());
    judge_at_site(rt.alloc(), 1000, &mut said);
    are_right(&rt, &said)
}
